// Union-find over the elements 0..C-1 (module 1): a record of parents and heights, by value in and by value
// out.
#![tactic(auto)]

ghost use Rattle.std.specs.Prelude.{◌≡◌, ℕ, ◌+◌, ◌-◌, ◌≤◌, ◌<◌, length, get_or, []};
ghost use Rattle.std.proofs.lemmas.List.Edits.{sets};
ghost use Rattle.base_lists.specs.Group.{class_of, classes};
ghost use Rattle.base_lists.specs.Pool.{pad};
ghost use Rattle.day_rows.specs.Told.{done, outcome, tells};
ghost use Rattle.reduce_union_find.specs.State.{fresh, sound_at, taken, climb, find_of, joined_tells, refused_join, linked, hung, join_of};
ghost use Rattle.reduce_union_find.specs.steps.Climbs.{Ends, Climbs, Fits};
ghost use Rattle.reduce_union_find.specs.Groups.{groups_written, groups_of};

use day_rows::refusal::Refusal;
use heights::{is_higher, raised};

pub mod heights;

// 'The state of parents and heights is one record by value'; the parent 255 stands for none.
#[derive(Clone, Copy)]
pub struct UnionFind {
    pub parents: [u8; 64],
    pub heights: [u8; 64],
}

// What join hands back: the root that both elements now have, and the record.
#[derive(Clone, Copy)]
pub struct Joined {
    pub found: Result<usize, Refusal>,
    pub state: UnionFind,
}

impl UnionFind {
    // The fresh state: 'Elements 0..C-1, no parents, heights 0.'
    pub fn new() -> UnionFind
        ensures { result ≡ fresh }
    {
        UnionFind {
            parents: [255u8; 64],
            heights: [0u8; 64],
        }
    }

    // The root of an element; 1 for a bad record or element.
    pub fn find(self, choices: usize, element: usize) -> Result<usize, Refusal>
        ensures { tells result ≡ find_of choices self element }
    {
        if !self.is_taken(choices) {
            return Err(Refusal::Count);
        }
        if element >= choices {
            return Err(Refusal::Count);
        }
        Ok(climb(&self.parents, element, 0))
    }

    // Both elements get one root, which comes back with the record; a refusal leaves the record as it was.
    pub fn join(self, choices: usize, left: usize, right: usize) -> Joined
        ensures { joined_tells (tells result.found) result.state ≡ join_of choices self left right }
    {
        if !self.is_taken(choices) {
            return self.refused();
        }
        if left >= choices {
            return self.refused();
        }
        if right >= choices {
            return self.refused();
        }
        let left_root = climb(&self.parents, left, 0);
        let right_root = climb(&self.parents, right, 0);
        self.link(left_root, right_root)
    }

    // The classes of equal root, one after another, and where each ends; both pools are 64 long.
    pub fn groups(
        self,
        choices: usize,
        members: &mut [u8],
        ends: &mut [u8],
    ) -> Result<usize, Refusal>
        ensures { outcome (tells result) (members.new, ends.new)
            ≡ groups_of choices self members.old ends.old }
    {
        if !self.is_taken(choices) {
            return Err(Refusal::Count);
        }
        if members.len() != 64 {
            return Err(Refusal::Length);
        }
        if ends.len() != 64 {
            return Err(Refusal::Length);
        }
        Ok(write_all(&self.parents, choices, members, ends))
    }

    // A join that is refused: 1, and the record as it was.
    fn refused(self) -> Joined
        ensures { joined_tells (tells result.found) result.state ≡ refused_join self }
    {
        Joined {
            found: Err(Refusal::Count),
            state: self,
        }
    }

    // Two roots, the left element's and the right one's, become one.
    fn link(self, left: usize, right: usize) -> Joined
        requires { Fits self left right }
        ensures { joined_tells (tells result.found) result.state ≡ linked self left right }
    {
        if left == right {
            return Joined {
                found: Ok(right),
                state: self,
            };
        }
        if is_higher(self.heights[left], self.heights[right]) {
            return Joined {
                found: Ok(left),
                state: self.hang(right, left),
            };
        }
        Joined {
            found: Ok(right),
            state: self.hang(left, right),
        }
    }

    // The lower root hangs under the higher, whose height becomes the larger of its own and the other's plus
    // 1.
    fn hang(self, lower: usize, higher: usize) -> UnionFind
        requires { Fits self lower higher }
        ensures { result ≡ hung self lower higher }
    {
        let mut state = self;
        let height = raised(self.heights[higher], self.heights[lower]);
        state.parents[lower] = higher as u8;
        state.heights[higher] = height;
        state
    }

    // Whether a record is taken: C is in its range, and each of the first C entries is sound.
    fn is_taken(&self, choices: usize) -> bool
        ensures { result ≡ taken choices self.now }
    {
        if choices > 64 {
            return false;
        }
        for i in 0..choices {
            if !self.is_sound(choices, i) {
                return false;
            }
        }
        true
    }

    // Whether an entry is sound: its height is at most 64, and it has no parent or one that is an element of
    // larger height.
    fn is_sound(&self, choices: usize, i: usize) -> bool
        requires { (i < choices) × (choices ≤ 64) }
        ensures { result ≡ sound_at choices self.now i }
    {
        let height = self.heights[i];
        if height > 64 {
            return false;
        }
        let parent = usize::from(self.parents[i]);
        if parent == 255 {
            return true;
        }
        if parent >= choices {
            return false;
        }
        height < self.heights[parent]
    }
}

// 'The climb from an element to its root calls itself on the parent'; 64 minus the steps climbed falls.
fn climb(parents: &[u8], element: usize, steps: usize) -> usize
    requires { (length parents.now ≡ 64) × (Ends (64 - steps) parents.now element) }
    ensures { result ≡ climb (64 - steps) parents.now element }
{
    let parent = usize::from(parents[element]);
    if parent == 255 {
        return element;
    }
    climb(parents, parent, steps + 1)
}

// The root of each of the first C elements.
fn roots_of(parents: &[u8], choices: usize) -> [u8; 64]
    requires { Climbs parents.now choices }
    ensures { (length result ≡ 64) × ((i : ℕ) → i < choices → get_or result i 0 ≡ climb 64 parents.now i) }
{
    let mut roots = [0u8; 64];
    for i in 0..choices {
        roots[i] = climb(parents, i, 0) as u8;
    }
    roots
}

// Writes the groups of a record that is taken: its roots, then two pools cleared, then the classes of equal
// root in them.
fn write_all(parents: &[u8], choices: usize, members: &mut [u8], ends: &mut [u8]) -> usize
    requires { Climbs parents.now choices × (length members.old ≡ 64) × (length ends.old ≡ 64) }
    ensures { let groups = classes choices (climb 64 parents.now) in
        outcome (done result) (members.new, ends.new) ≡ groups_written groups }
{
    let roots = roots_of(parents, choices);
    members.fill(0);
    ends.fill(0);
    write_groups(&roots, choices, members, ends)
}

// Writes the classes of equal root, by rising root, into two clear pools; the answer is how many they are.
fn write_groups(roots: &[u8], choices: usize, members: &mut [u8], ends: &mut [u8]) -> usize
    requires { (length roots.now ≡ 64) × (choices ≤ 64) × (members.old ≡ pad 64 []) × (ends.old ≡ pad 64 []) }
    ensures { let groups = classes choices (λ i. get_or roots.now i 0) in
        outcome (done result) (members.new, ends.new) ≡ groups_written groups }
{
    let mut count = 0;
    let mut at = 0;
    for root in 0..choices {
        if usize::from(roots[root]) == root {
            at = write_class(roots, choices, root, members, at);
            ends[count] = at as u8;
            count += 1;
        }
    }
    count
}

// Writes the elements of one root, rising, from a place on; the answer is the place after them.
fn write_class(roots: &[u8], choices: usize, root: usize, members: &mut [u8], from: usize) -> usize
    requires { let group = class_of choices (λ i. get_or roots.now i 0) root in
        (length roots.now ≡ 64) × (choices ≤ 64) × (length members.old ≡ 64) × (from + length group ≤ 64) }
    ensures { let group = class_of choices (λ i. get_or roots.now i 0) root in
        (result ≡ from + length group) × (members.new ≡ sets members.old from group) }
{
    let mut at = from;
    for i in 0..choices {
        if usize::from(roots[i]) == root {
            members[at] = i as u8;
            at += 1;
        }
    }
    at
}
