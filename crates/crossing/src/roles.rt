// Roles as numbers.
ghost use Rattle.std.specs.Prelude.{◌≡◌};
ghost use Rattle.crossing.specs.Roles.{role_from};

use codes::Role;
use refusal::Refusal;

// 0 is a request, 1 a reply; any other number is refused by 8.
// A function: `Role` is declared in `codes`, so no `TryFrom<u8>` of it can stand here.
#[tactic(auto, unfolding(crate::specs::Roles::role_from))]
pub fn role_from(number: u8) -> Result<Role, Refusal>
    ensures { result ≡ role_from number }
{
    match number {
        0 => Ok(Role::Request),
        1 => Ok(Role::Reply),
        _ => Err(Refusal::FieldOutside),
    }
}
