// The page: lines on their way out. It goes out when it is full, when a read came back short, and at the end.
use crate::outputs::{Cut, Outputs};
use refusal::Refusal;
use room::{front, lay};

// No line of a listing is longer (law `total_length` of `listing`).
pub(crate) const LONGEST_LINE: usize = 85;

// Lent room, how much of it is filled, and where it goes. After a `Cut` nothing more goes out: later lines would look as if they stood right behind the
// earlier ones.
#[derive(Drop)]
pub(crate) struct Page<'a> {
    pub(crate) room: &'a mut [u8],
    pub(crate) used: usize,
    pub(crate) out: Outputs,
}

impl Page<'_> {
    pub(crate) fn flush(&mut self) -> Result<(), Cut> {
        let used = self.used;
        self.out.write(front(self.room, used))?;
        self.used = 0;
        Ok(())
    }

    // For a line that could not be made or laid. The lines ahead of it go out, and standard error says so.
    fn cut(&mut self) -> Result<(), Cut> {
        self.flush()?;
        self.out.say("a line of the listing was refused");
        Err(Cut)
    }

    // Lays a line behind those of the page. If the page has no room for it, the page goes out first.
    fn put(&mut self, line: &[u8]) -> Result<(), Cut> {
        let used = self.used;
        self.used = lay(line, self.room, used);
        if self.used != used || line.is_empty() {
            return Ok(());
        }
        self.flush()?;
        self.used = lay(line, self.room, 0);
        if self.used == 0 {
            return self.cut();
        }
        Ok(())
    }

    // A line as it was written. A refused line is not passed over: the listing ends there, without a total.
    pub(crate) fn take(&mut self, written: Result<usize, Refusal>, text: &[u8]) -> Result<(), Cut> {
        match written {
            Ok(length) => self.put(front(text, length)),
            Err(_) => self.cut(),
        }
    }
}
