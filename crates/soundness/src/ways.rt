// The way into each state: the symbol on which all edges from reached states enter it, if it is one.
ghost use Rattle.std.specs.Prelude.{◌≡◌, ◌<◌, replicate};
ghost use Rattle.tables.specs.Lists.{lowest};
ghost use Rattle.soundness.specs.Laws.Edges.{Reached};
ghost use Rattle.soundness.specs.Laws.Ways.{way_of, joined_way, joined_to, Ways};
ghost use Rattle.soundness.specs.Laws.Walk.{Walked, is_unreached, is_done, Entered};
ghost use Rattle.soundness.specs.Laws.Back.{is_on};

use crate::paths::Judged;

// No path leads to the state, all edges enter it on one symbol, or they do on several; the path of no edges counts as another symbol.
#[derive(Clone, Copy, Debug, PartialEq, Eq)]
pub(crate) enum WayIn {
    Unreached,
    On(u16),
    Several,
}

impl WayIn {
    // All edges enter the state on y.
    pub(crate) fn is_on(self, y: u32) -> bool
        ensures { result ≡ is_on y self }
    {
        match self {
            WayIn::On(w) => u32::from(w) == y,
            WayIn::Unreached | WayIn::Several => false,
        }
    }

    // The way, with an edge on x more.
    fn joined(self, x: u16) -> WayIn
        ensures { result ≡ joined_way self x }
    {
        match self {
            WayIn::Unreached => WayIn::On(x),
            WayIn::On(w) => { if w == x { self } else { WayIn::Several } }
            WayIn::Several => WayIn::Several,
        }
    }
}

// An edge on x that leads to this state joins the way into it; where all edges enter on x, as they mostly do, nothing is stored.
#[tactic(auto, using(crate::specs::Laws::Ways::joined_same))]
fn join(ways: &mut [WayIn], x: u16, to: Option<u32>)
    ensures { ways.new ≡ joined_to ways.old x to }
{
    if let Some(t) = to {
        let way = number::at(ways, t as usize, WayIn::Unreached);
        if way != WayIn::On(x) {
            number::put(ways, t as usize, way.joined(x));
        }
    }
}

// No path leads to s.
pub(crate) fn is_unreached(ways: &[WayIn], s: u32) -> bool
    ensures { result ≡ is_unreached (way_of ways.now s) }
{
    number::at(ways, s as usize, WayIn::Unreached) == WayIn::Unreached
}

// No path leads to s so far, or its edges have been walked.
fn is_done(ways: &[WayIn], walked: &[bool], s: u32) -> bool
    ensures { result ≡ is_done ways.now walked.now s }
{
    is_unreached(ways, s) || number::at(walked, s as usize, false)
}

// The lowest state that is reached and whose edges have not been walked.
fn lowest_open(states: u32, ways: &[WayIn], walked: &[bool]) -> Option<u32>
    ensures { result ≡ lowest (is_done ways.now walked.now) states }
{
    (0..states).find(|s| !is_done(ways, walked, *s))
}

impl<'a> Judged<'a> {
    // The edges of s join the ways.
    fn walk(self, ways: &mut [WayIn], s: u32)
        requires kept { Ways self.grammar.sizes self.table.states self.table.entries.now ways.old }
        requires reached { Reached self.grammar.sizes self.table.entries.now s }
        requires below { s < self.table.states }
        ensures { Walked self.entry.grammar.sizes self.entry.table.states self.entry.table.entries.now s ways.old ways.new }
    {
        for x in 1..self.grammar.sizes.symbols {
            join(ways, x as u16, self.edge(s, x));
        }
    }

    // The ways into all states, from the path of no edges on.
    pub(crate) fn find_ways(self, ways: &mut [WayIn; 1024])
        requires { ways.old ≡ replicate 1024 WayIn.Unreached }
        ensures { Entered self.entry.grammar.sizes self.entry.table.states self.entry.table.entries.now ways.new }
    {
        // No heap: which states have been walked stands in the frame.
        let mut walked = [false; 1024];
        ways[0] = WayIn::Several;
        // A walk may open more states, so there is no range to go over.
        while let Some(s) = lowest_open(self.table.states, ways, &walked) {
            walked[s as usize] = true;
            self.walk(ways, s);
        }
    }
}
