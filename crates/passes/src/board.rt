ghost use Rattle.std.specs.Prelude.{◌≡◌, ◌+◌, ◌<◌, ◌^◌, [], ◌∷◌, None, IfSome, IsSome, length, true};
ghost use Rattle.passes.specs.Known.{HasSeenAll, pass, commits, count_of, newcomer, alone, hosting, one_more, writing, told_of, asked_of, heard_of};
ghost use Rattle.passes.specs.Steps.{IsBadge, IsCompared, IsCountFor, known};

use crate::rule::{Adds, Asks, Committing, Counts, Hears, Learns, Lends, Makes, Words};
use crate::{Desk, Naming, View};
use atomic_table::Badge;
use std::marker::PhantomData;

/// The two words, and each step on them.
#[derive(Drop)]
pub struct Board<J: Naming> {
    pub(crate) words: Words,
    pub(crate) of: PhantomData<J>,
    ghost is_named: { words.shared.table_id ≡ J.table },
    ghost two_words: { words.shared.table_id.words ≡ 2 },
}

impl<J: Naming> Board<J> {
    // The pass is lent to the keeper. The load's value is not used; at the load the rule says that the history has what
    // the pass knows.
    pub(crate) fn lend(&self, desk: &mut Desk<J>, badge: Badge<View>)
        requires alone { desk.old.guest ≡ None }
        requires pass { IsBadge J.table badge }
        ensures desk { desk.new ≡ hosting (known badge.views) desk.old }
        ensures compared { IsCompared desk.new }
    {
        let shared = &self.words.shared;
        shared.join_seat::<Lends>(&mut desk.seat, badge.into_seat());
        shared.load::<Learns>(&mut desk.seat, 0);
    }

    // Writes the commit of `M`, which has this many events, for the guest.
    pub(crate) fn write<M: Committing>(&self, desk: &mut Desk<J>, count: u64)
        requires guest { IsSome desk.old.guest }
        requires count { count ≡ length M.commit }
        requires room { count_of (commits desk.old.book.history) + count < 2 ^ 64 }
        ensures { desk.new ≡ writing M.commit desk.old }
    {
        self.words
            .shared
            .fetch_add::<Adds<M>>(&mut desk.seat, 0, count);
    }

    // The guest is given back, and has seen all.
    pub(crate) fn give_back(&self, desk: &mut Desk<J>) -> Badge<View>
        requires { IsSome desk.old.guest }
        ensures desk { desk.new ≡ alone desk.old }
        ensures pass { (result.table_id ≡ J.table) × IfSome desk.old.guest (HasSeenAll desk.old result.views) }
    {
        self.words
            .shared
            .split_seat::<Lends>(&mut desk.seat)
            .into_badge()
    }

    /// Compares the desk with the words: no commit was made with a pass whose number is not below the count of passes.
    pub fn look(&self, desk: &mut Desk<J>)
        ensures same { desk.new ≡ desk.old }
        ensures compared { IsCompared desk.new }
    {
        self.words.shared.load::<Learns>(&mut desk.seat, 0);
    }

    // Makes one more pass.
    pub(crate) fn make(&self, desk: &mut Desk<J>) -> Badge<View>
        ensures desk { desk.new ≡ one_more desk.old }
        ensures pass { (result.table_id ≡ J.table) × (result.views ≡ pass (newcomer desk.old.book.passes) ∷ []) }
    {
        self.words
            .shared
            .split_seat::<Makes>(&mut desk.seat)
            .into_badge()
    }

    // Gives the pass the number of events.
    pub(crate) fn count(&self, badge: Badge<View>) -> (Badge<View>, u64)
        requires { IsBadge J.table badge }
        ensures pass { (result.0.table_id ≡ J.table) × (result.0.views ≡ pass (told_of result.1 (known badge.views)) ∷ []) }
        ensures count { IsCountFor result.1 (known badge.views) }
    {
        let mut seat = badge.into_seat();
        let found = self.words.shared.load::<Counts>(&mut seat, 0);
        (seat.into_badge(), found)
    }

    // Asks for a stop, with the pass.
    pub(crate) fn ask(&self, badge: Badge<View>) -> Badge<View>
        requires { IsBadge J.table badge }
        ensures { (result.table_id ≡ J.table) × (result.views ≡ pass (asked_of (known badge.views)) ∷ []) }
    {
        let mut seat = badge.into_seat();
        self.words.shared.fetch_or::<Asks>(&mut seat, 1, 1);
        seat.into_badge()
    }

    // Says whether a stop was asked, and the pass has heard if one was.
    pub(crate) fn hear(&self, badge: Badge<View>) -> (Badge<View>, bool)
        requires { IsBadge J.table badge }
        ensures pass { (result.0.table_id ≡ J.table) × (result.0.views ≡ pass (heard_of result.1 (known badge.views)) ∷ []) }
        ensures asked { (known badge.views).asked ≡ true → result.1 ≡ true }
        ensures heard { (known badge.views).heard ≡ true → result.1 ≡ true }
    {
        let mut seat = badge.into_seat();
        let found = self.words.shared.load::<Hears>(&mut seat, 1);
        (seat.into_badge(), found == 1)
    }
}
