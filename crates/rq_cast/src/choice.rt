//! Whose cells are received.
ghost use Rattle.std.specs.Prelude.{◌≡◌, ◌⊎◌, ◌+◌, ◌<◌, None, MatchOption, IfSome, true, false};
ghost use Rattle.rq_cast.specs.PartReceiving.{IsNextRival};
ghost use Rattle.rq_cast.specs.Searching.{counted};

use raptorq::systematic_constants::SystematicTable;
use rq_cells::Head;

/// A head of the part that isn't in use, and how many more of its cells came than of further ones.
#[derive(Clone, Copy, Debug)]
pub(crate) struct Rival {
    pub head: Head,
    pub cells: u64,
}

/// The head whose cells are received, and another one that may come in its place.
#[derive(Clone, Copy, Debug)]
pub(crate) struct Choice {
    pub head: Head,
    /// How many of its cells came, since they determined what isn't the part.
    pub cells: u64,
    pub rival: Option<Rival>,
}

// The rival behind a cell with a head that isn't in use: as in a majority vote it is let go where as many
// cells came of further heads.
fn next_rival(rival: Option<Rival>, head: &Head) -> Option<Rival>
    ensures heads { IfSome result (λ r. (r.head ≡ head.now) ⊎ MatchOption rival ⊥ (λ old. r.head ≡ old.head)) }
    ensures next { IsNextRival rival head.now result }
{
    let Some(rival) = rival else {
        return Some(Rival {
            head: *head,
            cells: 1,
        });
    };
    if rival.head == *head {
        return Some(Rival {
            head: *head,
            cells: rival.cells.saturating_add(1),
        });
    }
    if rival.cells <= 1 {
        return None;
    }
    Some(Rival {
        head: rival.head,
        cells: rival.cells - 1,
    })
}

impl Choice {
    ghost use Rattle.rq_cast.specs.PartReceiving.{EachHead, IsHeadBehind, TakesPlace, CountsOther};

    /// The first head, before any cell.
    pub fn new(head: Head) -> Choice
        ensures head { result.head ≡ head }
        ensures none { result.cells ≡ 0 }
        ensures alone { result.rival ≡ None }
    {
        Choice {
            head,
            cells: 0,
            rival: None,
        }
    }

    /// Counts a cell with the head in use.
    pub fn count(&mut self)
        ensures head { self.new.head ≡ self.old.head }
        ensures rival { self.new.rival ≡ self.old.rival }
        ensures more { self.new.cells ≡ counted (self.old.cells + 1) }
    {
        self.cells = self.cells.saturating_add(1);
    }

    /// Counts a cell with another head, if coders take its configuration over a table. Answers whether
    /// that head is in use now: where more of its cells came.
    pub fn count_other(&mut self, table: &SystematicTable, head: &Head) -> bool
        ensures heads { EachHead (IsHeadBehind table.now self.old head.now) self.new }
        ensures same { result ≡ false → self.new.head ≡ self.old.head }
        ensures changed { result ≡ true → self.new.head ≡ head.now }
        ensures counts { CountsOther table.now self.old head.now result self.new }
    {
        if head.configuration.check(table).is_err() {
            return false;
        }
        self.rival = next_rival(self.rival, head);
        self.give_way(head)
    }

    // Has a head take the place of the one in use, where it is the rival and more of its cells came. A head
    // none of whose cells counts is no rival.
    fn give_way(&mut self, head: &Head) -> bool
        ensures same { result ≡ false → self.new ≡ self.old }
        ensures changed { result ≡ true → self.new.head ≡ head.now }
        ensures rival { result ≡ true → IfSome self.new.rival (λ r. r.head ≡ self.old.head) }
        ensures takes_place { TakesPlace self.old head.now result self.new }
    {
        let Some(rival) = self.rival else {
            return false;
        };
        if rival.head != *head || rival.cells <= self.cells {
            return false;
        }
        self.rival = (self.cells > 0).then_some(Rival {
            head: self.head,
            cells: self.cells,
        });
        self.head = *head;
        self.cells = rival.cells;
        true
    }
}
