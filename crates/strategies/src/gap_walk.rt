//! A walk over configurations, which gives the gaps of their pebbles.

ghost use Rattle.std.specs.Prelude.{◌≡◌, ◌+◌, ◌-◌, ◌<◌, ◌≤◌, ◌∷◌, ◌++◌, [], All, IfSome, length};
ghost use Rattle.std.specs.Prelude.{take, true};
ghost use Rattle.std.specs.List.{remove};
ghost use Rattle.board_text.specs.PlainBoard.{IsBoard, IsConfiguration, places};
ghost use Rattle.positions.specs.Game.{moved};
ghost use Rattle.positions.specs.Ranks.{configurations, configuration_at, rank_of};
ghost use Rattle.classes.specs.Classes.{class_of};
ghost use Rattle.classes.specs.Numbers.{number_by_greatest};
ghost use Rattle.strategies.specs.Inside.MovesAt.{position};
ghost use Rattle.strategies.specs.Inside.Walks.{AreGapNumbers, AreNumberRows, others_held};

use board_text::MAX_PEBBLES;
use classes::{MemberTables, Places};
use positions::{MAX_CONFIGURATIONS, Space};
use std::marker::Model;

/// A configuration and the numbers of its gaps' classes.
///
/// The configurations that differ in the last pebble's place alone have ranks that follow one
/// another. From one to another of them, each gap costs one look-up.
///
/// Contracts see the board and the configuration.
#[derive(Drop)]
pub(crate) struct GapWalk<'a> {
    space: &'a Space,
    members: &'a MemberTables,
    configuration: Places,
    /// The rank of the configuration with the place 0 for the last pebble.
    first: u32,
    /// For the first pebbles, of each number, a row: for each of them the number of the class of
    /// their places but its own, and after these the number of the class of all.
    rests: [u32; ROOM],
    /// For each pebble, the number of the class of its gap.
    gaps: [u32; MAX_PEBBLES],
}

/// The number of entries of a row for each number of pebbles.
const ROOM: usize = MAX_PEBBLES * MAX_PEBBLES;

impl<'a> Model for GapWalk<'a> {
    ghost use Rattle.strategies.specs.Inside.MovesAt.{HeldPosition, position};
    ghost use Rattle.strategies.specs.Inside.Walks.{IsGapWalk};

    ghost Value = { HeldPosition };

    ghost view = { λ w. position w.space.now w.configuration };

    ghost invariant = { λ w.
        IsGapWalk w.space.now w.members.now w.configuration w.first w.rests w.gaps };
}

impl<'a> GapWalk<'a> {
    /// A walk at the configuration of `rank`.
    pub(crate) fn at(space: &'a Space, members: &'a MemberTables, rank: u32) -> GapWalk<'a>
        requires same_board { members.now ≡ space.now }
        requires rank { rank < configurations space.now }
        ensures { result ≡ position space.now (configuration_at space.now rank) }
    {
        let configuration = Places::at(space, rank);
        let first = first_near(space, rank, configuration.as_slice());
        let mut rests = [0; ROOM];
        fill_rests(members, configuration.as_slice(), 0, &mut rests);
        let gaps = gaps_of(members, configuration.as_slice(), &rests);
        GapWalk {
            space,
            members,
            configuration,
            first,
            rests,
            gaps,
        }
    }

    /// Goes to the configuration of `rank`.
    pub(crate) fn move_to(&mut self, rank: u32)
        requires { rank < configurations self.old.board }
        ensures { self.new ≡ position self.old.board (configuration_at self.old.board rank) }
    {
        let Some(place) = self.place_at(rank) else {
            self.go_to(rank);
            return;
        };
        self.configuration.set(self.space.pebbles() - 1, place);
        self.gaps = gaps_of(self.members, self.configuration.as_slice(), &self.rests);
    }

    /// The same, if the place of another pebble than the last one can differ. The rows of the first
    /// pebbles whose places stay are kept.
    #[inline(never)]
    fn go_to(&mut self, rank: u32)
        requires { rank < configurations self.old.board }
        ensures { self.new ≡ position self.old.board (configuration_at self.old.board rank) }
    {
        let last = self.space.pebbles() - 1;
        let next = Places::at(self.space, rank);
        let same = count_same(self.configuration.as_slice(), next.as_slice(), last);
        fill_rests(self.members, next.as_slice(), same, &mut self.rests);
        self.gaps = gaps_of(self.members, next.as_slice(), &self.rests);
        self.first = first_near(self.space, rank, next.as_slice());
        self.configuration = next;
    }

    /// The place of the last pebble at the configuration of `rank`, if that differs from the
    /// present one in this place alone.
    fn place_at(&self, rank: u32) -> Option<u16>
        ensures place { IfSome result (λ place. place < places self.now.board) }
        ensures rank { IfSome result (λ place. configuration_at self.now.board rank
            ≡ moved self.now.held (self.now.board.pebbles - 1) place) }
    {
        let place = rank.checked_sub(self.first)?;
        if place >= self.space.places() as u32 {
            return None;
        }
        Some(place as u16)
    }

    /// Whether the configuration of `rank` is found to differ in the last pebble's place alone.
    pub(crate) fn is_near(&self, rank: u32) -> bool
        ensures { result ≡ true → others_held self.now.board (configuration_at self.now.board rank)
            ≡ others_held self.now.board self.now.held }
    {
        self.place_at(rank).is_some()
    }

    /// The places of all pebbles but the last.
    pub(crate) fn others(&self) -> &[u16]
        ensures value { result.now ≡ others_held self.now.board self.now.held }
        ensures few { length result.now ≤ MAX_PEBBLES }
        ensures places { All (λ place. place ≤ self.now.board.labels) result.now }
    {
        &self.configuration.as_slice()[..self.space.pebbles() as usize - 1]
    }

    /// The place of the last pebble.
    pub(crate) fn last(&self) -> u16
        ensures { others_held self.now.board self.now.held ++ result ∷ [] ≡ self.now.held }
    {
        self.configuration.as_slice()[self.space.pebbles() as usize - 1]
    }

    /// The places of the configuration.
    pub(crate) fn held(&self) -> &[u16]
        ensures { result.now ≡ self.now.held }
    {
        self.configuration.as_slice()
    }

    /// The number of pebbles.
    pub(crate) fn pebbles(&self) -> u8
        ensures value { result ≡ self.now.board.pebbles }
        ensures is_board { IsBoard self.now.board }
        ensures is_configuration { IsConfiguration self.now.board self.now.held }
        ensures few { configurations self.now.board ≤ MAX_CONFIGURATIONS }
    {
        self.space.pebbles()
    }

    /// For each pebble, the number of the class of its gap. The entries after those of the pebbles
    /// say nothing.
    pub(crate) fn gaps(&self) -> &[u32; MAX_PEBBLES]
        ensures { AreGapNumbers self.now.held self.now.board.pebbles result.now }
    {
        &self.gaps
    }
}

/// For each pebble, the number of the class of its gap at the configuration `held`, by the rows
/// for its first pebbles.
fn gaps_of(members: &MemberTables, held: &[u16], rests: &[u32; ROOM]) -> [u32; MAX_PEBBLES]
    requires held { IsConfiguration members.now held.now }
    requires some { 0 < length held.now }
    requires few { length held.now ≤ MAX_PEBBLES }
    requires rests { AreNumberRows held.now (length held.now) rests.now }
    ensures { AreGapNumbers held.now (length held.now) result }
{
    let last = held.len() - 1;
    let row = MAX_PEBBLES * last;
    let mut numbers = [0; MAX_PEBBLES];
    for pebble in 0..last {
        numbers[pebble] = members.member(last as u8 - 1, rests[row + pebble], held[last]);
    }
    numbers[last] = rests[row + last];
    numbers
}

/// The rank of the configuration with the place 0 for the last pebble, by the `rank` and the places
/// `held` of one that differs in this place alone.
fn first_near(space: &Space, rank: u32, held: &[u16]) -> u32
    requires rank { rank < configurations space.now }
    requires held { held.now ≡ configuration_at space.now rank }
    ensures first { result ≡ rank_of space.now
        (moved (configuration_at space.now rank) (space.now.pebbles - 1) 0) }
    ensures is_board { IsBoard space.now }
{
    rank - held[space.pebbles() as usize - 1] as u32
}

/// How many of the first pebbles, of which there are at most `most`, have the same places in both.
fn count_same(first: &[u16], second: &[u16], most: u8) -> u8
    requires first { most ≤ length first.now }
    requires second { most ≤ length second.now }
    ensures most { result ≤ most }
    ensures same { take result first.now ≡ take result second.now }
{
    let mut same = 0;
    while same < most && first[same as usize] == second[same as usize] {
        same += 1;
    }
    same
}

/// Fills the rows for more than `count` pebbles, up to all but the last one.
fn fill_rests(members: &MemberTables, held: &[u16], count: u8, rests: &mut [u32; ROOM])
    requires held { IsConfiguration members.now held.now }
    requires some { 0 < length held.now }
    requires few { length held.now ≤ MAX_PEBBLES }
    requires count { count < length held.now }
    requires rests { AreNumberRows held.now (count + 1) rests.old }
    ensures { AreNumberRows held.now (length held.now) rests.new }
{
    for size in count..held.len() as u8 - 1 {
        fill_row(members, held, size, rests);
    }
}

/// Fills the row for one pebble more than `size`.
fn fill_row(members: &MemberTables, held: &[u16], size: u8, rests: &mut [u32; ROOM])
    requires held { IsConfiguration members.now held.now }
    requires few { length held.now ≤ MAX_PEBBLES }
    requires size { size + 1 < length held.now }
    requires rests { AreNumberRows held.now (size + 1) rests.old }
    ensures { AreNumberRows held.now (size + 2) rests.new }
{
    for pebble in 0..size + 2 {
        let number = rest_of(members, held, size, pebble, rests);
        rests[MAX_PEBBLES * (size as usize + 1) + pebble as usize] = number;
    }
}

/// The number of the class of the first `size` + 1 places of `held` but that of `pebble`, by the
/// row for one pebble less.
fn rest_of(members: &MemberTables, held: &[u16], size: u8, pebble: u8, rests: &[u32; ROOM]) -> u32
    requires held { IsConfiguration members.now held.now }
    requires few { length held.now ≤ MAX_PEBBLES }
    requires size { size + 1 < length held.now }
    requires pebble { pebble ≤ size + 1 }
    requires rests { AreNumberRows held.now (size + 1) rests.now }
    ensures { result ≡ number_by_greatest (class_of (remove (take (size + 1) held.now) pebble)) }
{
    let row = MAX_PEBBLES * size as usize;
    let place = held[size as usize];
    if pebble < size {
        return members.member(size - 1, rests[row + pebble as usize], place);
    }
    let whole = rests[row + size as usize];
    if pebble == size {
        return whole;
    }
    members.member(size, whole, place)
}
