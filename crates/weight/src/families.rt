// The families of terminals. The caller says the family of a line; bits 6 and 5 of the status byte mean what it says (02, request 4).
ghost use Rattle.std.specs.Prelude.{◌≡◌, ok_or};
ghost use Rattle.refusal.specs.declared.Refusal.TheVariants.{FieldOutside};
ghost use Rattle.weight.specs.Families.{family_number, family_named};

use refusal::Refusal;

// A terminal's family is that of the document which describes it.
#[derive(Clone, Copy, Debug, PartialEq, Eq)]
pub enum Family {
    Plain, // not said: a record from before families were, whose bits 6 and 5 stay two plain bits
    Of000, // bit 6 key code entered, bit 5 net mode
    Of001, // bit 6 event, bit 5 current scale number
    Of002, // bit 6 reserved and 0, bit 5 net mode
}

// The number of a family, as a record has it in byte 17. A match and no `family as u8`: it holds the table that the record's layout fixes.
impl From<Family> for u8 {
    ghost from_gives = { λ family number. number ≡ family_number family };

    fn from(family: Family) -> u8 {
        match family {
            Family::Plain => 0,
            Family::Of000 => 1,
            Family::Of001 => 2,
            Family::Of002 => 3,
        }
    }
}

// The family with a number that a record or a caller in another language gives. A number that names no family is refused by 8.
impl TryFrom<u8> for Family {
    type Error = Refusal;

    ghost try_from_gives = { λ number result. result ≡ ok_or (family_named number) FieldOutside };

    #[tactic(auto, unfolding(crate::specs::Families::family_named, crate::specs::Families::named_in))]
    fn try_from(number: u8) -> Result<Family, Refusal> {
        match number {
            0 => Ok(Family::Plain),
            1 => Ok(Family::Of000),
            2 => Ok(Family::Of001),
            3 => Ok(Family::Of002),
            _ => Err(Refusal::FieldOutside),
        }
    }
}
