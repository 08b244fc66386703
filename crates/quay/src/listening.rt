// The line, for C.
ghost use Rattle.quay_line.specs.Listening.{Listened};

use quay_line::{QuayPlace, QuayWent};

// `quay_line::quay_listen`: takes a block up to and including the first event, or to the block's end. The body of a frame just heard stands at
// the front of `body`. The caller lends `body` again with the next block, as it was left.
#[unsafe(no_mangle)]
pub extern "C" fn quay_listen(place: QuayPlace, block: &[u8], body: &mut [u8; 255]) -> QuayWent
    ensures { Listened place block.now body.old result body.new }
{
    quay_line::quay_listen(place, block, body)
}
