// Lines of the inquest in a lent list, five words a line.
#![tactic(auto)]

ghost use Rattle.std.specs.Prelude.{◌≡◌, [], ◌∷◌, ◌+◌, ◌≤◌};
ghost use Rattle.inquest.specs.Lists.{unless};
ghost use Rattle.inquest_lines.specs.declared.ListRefusal.TheVariants.{Refused};
ghost use Rattle.inquest_lines.specs.Lent.{Laid, ListsLines, most_lines};

use difference_lines::Side;
use differences::{list_all, put_row};
use inquest::Line;
use rulebook::Refusal;

// Why nothing was listed: the side whose record is bad, another refusal, or the number of lines needed.
#[derive(Clone, Copy, Debug, PartialEq, Eq)]
pub enum ListRefusal {
    BadRecord(Side),
    Refused(Refusal),
    NoRoom(usize),
}

impl From<Refusal> for ListRefusal {
    ghost from_gives = { λ r e. e ≡ Refused r };

    fn from(r: Refusal) -> ListRefusal {
        ListRefusal::Refused(r)
    }
}

// Puts a line behind the first `at`, as far as the list reaches, and answers how many there are then.
pub fn put_line(list: &mut [u64], at: usize, x: Line) -> usize
    requires { at + 1 ≤ most_lines }
    ensures { Laid list.old at (x ∷ []) list.new result }
{
    let row = [
        x.slot.0 as u64,
        x.node.0 as u64,
        u64::from(x.kind),
        x.block,
        x.source,
    ];
    put_row(list, at, row)
}

// Puts the line where its test does not pass.
pub fn put_unless(list: &mut [u64], at: usize, passes: bool, x: Line) -> usize
    requires { at + 1 ≤ most_lines }
    ensures { Laid list.old at (unless passes x) list.new result }
{
    if passes {
        return at;
    }
    put_line(list, at, x)
}

// Lists all lines, counted first: where they have no room, nothing is put.
pub fn list_lines<F: Fn(&mut [u64]) -> usize>(
    list: &mut [u64],
    put: F,
) -> Result<usize, ListRefusal>
    requires { F.IsAlwaysCallable put }
    ensures { ListsLines F.Fn put list.old result list.new }
{
    list_all(list, put).map_err(ListRefusal::NoRoom)
}
