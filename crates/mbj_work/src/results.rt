ghost use Rattle.std.specs.Prelude.{◌≡◌, ◌<◌, length, map, slice_get, Some};
ghost use Rattle.mbj_work.specs.Dealing.{AreDealt};
ghost use Rattle.mbj_work.specs.Inside.Gathering.{gathered};

use mbj_types::Done;
use std::marker::Model;

/// The results of jobs, in the order of the jobs, which contracts see as their list. They stay in the lists of the
/// submitters to which the jobs were dealt by turns.
#[derive(Drop)]
pub struct Results {
    lists: Vec<Vec<Done>>,
    count: usize,
}

impl Model for Results {
    ghost use Rattle.std.specs.Prelude.{◌≡◌, List, length, map};
    ghost use Rattle.mbj_types.specs.declared.done.Done.{Done};
    ghost use Rattle.mbj_work.specs.Dealing.{AreDealt};
    ghost use Rattle.mbj_work.specs.Inside.Gathering.{gathered};

    ghost Value = { List Done };

    ghost view = { λ r. gathered r.count 0 (length r.lists.items) (map (λ l. l.items) r.lists.items) };

    ghost invariant = { λ r. (length (gathered r.count 0 (length r.lists.items) (map (λ l. l.items) r.lists.items)) ≡ r.count)
        × AreDealt (gathered r.count 0 (length r.lists.items) (map (λ l. l.items) r.lists.items))
        (length r.lists.items) (map (λ l. l.items) r.lists.items) };
}

impl Results {
    /// The `count` results of these lists, to which they were dealt by turns.
    pub(crate) fn of(lists: Vec<Vec<Done>>, count: usize) -> Results
        requires dealt { let dealt = map (λ l. l.items) lists.items in
            AreDealt (gathered count 0 (length lists.items) dealt) (length lists.items) dealt }
        requires count { length (gathered count 0 (length lists.items) (map (λ l. l.items) lists.items)) ≡ count }
        ensures { result ≡ gathered count 0 (length lists.items) (map (λ l. l.items) lists.items) }
    {
        Results { lists, count }
    }

    /// How many there are.
    pub fn count(&self) -> usize
        ensures { result ≡ length self.now }
    {
        self.count
    }

    /// Result `number`, counted from 0.
    pub fn at(&self, number: u32) -> &Done
        requires { number < length self.now }
        ensures { slice_get self.now number ≡ Some result.now }
    {
        let submitters = self.lists.len();
        &self.lists[number as usize % submitters][number as usize / submitters]
    }
}
