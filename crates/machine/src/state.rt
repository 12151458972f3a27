//! The run state: flat arrays with their counts, seen as the lists that they hold.

ghost use Rattle.std.specs.Prelude.{◌≡◌, ◌++◌, ◌∷◌, [], ◌+◌, ◌*◌, ◌<◌, ◌≤◌, length, slice_index_or, OnErr, IsTrue, ⊤};
ghost use Rattle.machine.specs.Snapshot.{empty, no_frame, holds, sees, is_linked, class_at, has_room, has_link_room, add_label, insert_link, label_of, join, connect, declared, with_object, called, resumed, pending_in, outcome_of};
ghost use Rattle.machine.specs.Frame.{frame_at, cleared};

use crate::label::Label;
use crate::link::Link;
use crate::refusal::Refusal;
use std::alloc::AllocError;
use std::marker::Model;

/// How many numbers there are for objects.
pub const OBJECTS: usize = 256;

/// How many links there are at most.
pub const LINKS: usize = 256;

/// How many labels a frame has at most.
pub const FRAME_LABELS: usize = 32;

/// How many frames are saved at most.
pub const SAVED_FRAMES: usize = 16;

/// The places of the running frame and of all saved ones.
const LABELS: usize = FRAME_LABELS * (SAVED_FRAMES + 1);

/// A context that waits for a call: its method, the class that the call owes it, and the size of its frame.
#[derive(Clone, Copy, Debug, PartialEq, Eq)]
pub struct Saved {
    pub method: u8,
    pub pending: Option<u8>,
    pub label_count: usize,
}

/// Whether a frame has room for the label; one that is there already needs none.
pub fn has_room(frame: &[Label], label: Label) -> bool
    ensures { result ≡ has_room frame.now label }
{
    frame.len() < FRAME_LABELS || frame.contains(&label)
}

/// The frame at a depth, of `count` labels.
fn frame(labels: &[Label], depth: usize, count: usize) -> &[Label]
    requires depth_within { depth ≤ SAVED_FRAMES }
    requires in_bounds { FRAME_LABELS * depth + count ≤ length labels.now }
    ensures { result.now ≡ frame_at labels.now depth count }
{
    let start = FRAME_LABELS * depth;
    let end = start + count;
    &labels[start..end]
}

/// The frame at a depth has no label any more. All its places are written, which is one copy of 64 bytes.
fn clear(labels: &mut [Label; LABELS], depth: usize)
    requires { depth ≤ SAVED_FRAMES }
    ensures { labels.new ≡ cleared labels.old depth }
{
    let nothing = [Label {
        object: 0,
        class: 0,
    }; FRAME_LABELS];
    let start = FRAME_LABELS * depth;
    labels[start..start + FRAME_LABELS].copy_from_slice(&nothing);
}

/// What a run holds. The frame at a depth has its own `FRAME_LABELS` places, so that a call and a return move none. Behind the counts stand zeros, so
/// that a state is what it holds and no more: it can be copied, and of two states that hold the same both are one value.
#[derive(Copy)]
pub struct State {
    pool: [Option<u8>; OBJECTS],
    links: [Link; LINKS],
    link_count: usize,
    labels: [Label; LABELS],
    label_count: usize,
    saved: [Saved; SAVED_FRAMES],
    depth: usize,
    method: u8,
}

impl Model for State {
    ghost use Rattle.machine.specs.Snapshot.{Snapshot};

    ghost Value = { Snapshot };

    ghost use Rattle.machine.specs.StateView.{snapshot_of, inside_of, IsWithinLimits};

    ghost view = { snapshot_of };

    ghost invariant = { IsWithinLimits };

    ghost inverse = { inside_of };

    ghost inverse_ok = { λ s within. within.whole };
}

// By hand, so that its contract says that the clone is the state, and that there is one.
impl Clone for State {
    ghost is_clone = { λ x y. y ≡ x };

    ghost is_infallible = { λ _. ⊤ };

    fn clone(&self) -> Result<State, AllocError> {
        Ok(*self)
    }
}

#[tactic(auto, using(crate::proofs::Changes::changes))]
impl State {
    /// A run of the method before anything is there.
    pub fn new(method: u8) -> Self
        ensures { result ≡ empty method }
    {
        State {
            pool: [None; OBJECTS],
            links: [Link {
                owner: 0,
                declared: 0,
                typ: 0,
                target: 0,
            }; LINKS],
            link_count: 0,
            labels: [Label {
                object: 0,
                class: 0,
            }; LABELS],
            label_count: 0,
            saved: [Saved {
                method: 0,
                pending: None,
                label_count: 0,
            }; SAVED_FRAMES],
            depth: 0,
            method,
        }
    }

    /// The method that runs.
    pub fn method(&self) -> u8
        ensures { result ≡ self.now.method }
    {
        self.method
    }

    /// The labels of the running frame.
    pub fn labels(&self) -> &[Label]
        ensures labels { result.now ≡ self.now.labels }
        ensures within { length self.now.labels ≤ FRAME_LABELS }
    {
        frame(&self.labels, self.depth, self.label_count)
    }

    pub fn links(&self) -> &[Link]
        ensures links { result.now ≡ self.now.links }
        ensures within { length self.now.links ≤ LINKS }
    {
        &self.links[..self.link_count]
    }

    /// How many frames are saved.
    pub fn depth(&self) -> usize
        ensures depth { result ≡ length self.now.saved }
        ensures within { result ≤ SAVED_FRAMES }
    {
        self.depth
    }

    /// The method of the saved frame at a place, the newest at 0.
    pub fn saved_method(&self, place: usize) -> u8
        requires { place < length self.now.saved }
        ensures { result ≡ (slice_index_or self.now.saved place no_frame).method }
    {
        self.saved[self.depth - 1 - place].method
    }

    /// The labels of the saved frame at a place, the newest at 0.
    pub fn saved_labels(&self, place: usize) -> &[Label]
        requires { place < length self.now.saved }
        ensures labels { result.now ≡ (slice_index_or self.now.saved place no_frame).labels }
        ensures within { length result.now ≤ FRAME_LABELS }
    {
        let depth = self.depth - 1 - place;
        frame(&self.labels, depth, self.saved[depth].label_count)
    }

    /// What the saved frame at a place waits for, the newest at 0: the class that the call owes it, or nothing.
    pub fn saved_pending(&self, place: usize) -> Option<u8>
        requires { place < length self.now.saved }
        ensures { result ≡ (slice_index_or self.now.saved place no_frame).pending }
    {
        self.saved[self.depth - 1 - place].pending
    }

    /// The class of the object, if there is one of this number.
    pub fn class_of(&self, object: u8) -> Option<u8>
        ensures class { result ≡ class_at self.now object }
        ensures all_numbers { length self.now.pool ≡ 256 }
    {
        self.pool[object as usize]
    }

    /// Whether the running frame has this label.
    pub fn holds(&self, label: Label) -> bool
        ensures { result ≡ holds self.now.labels label }
    {
        self.labels().contains(&label)
    }

    /// Whether the running frame has the object at any class.
    pub fn sees(&self, object: u8) -> bool
        ensures { result ≡ sees self.now.labels object }
    {
        self.labels().iter().any(|held| held.object == object)
    }

    /// A label goes behind the labels of the running frame.
    fn push_label(&mut self, label: Label)
        requires { length self.old.labels < FRAME_LABELS }
        ensures { self.new ≡ record self.old { labels = self.old.labels ++ label ∷ [] } }
    {
        self.labels[FRAME_LABELS * self.depth + self.label_count] = label;
        self.label_count += 1;
    }

    /// A label joins the running frame, where there is room left for one that is new.
    pub fn insert_label(&mut self, label: Label)
        requires { IsTrue (has_room self.old.labels label) }
        ensures { self.new ≡ record self.old { labels = add_label self.old.labels label } }
    {
        if !self.holds(label) {
            self.push_label(label);
        }
    }

    /// Whether the frame of a call that is made has this label. Its labels were written just now, and a word is not read before all its bytes have left the
    /// store buffer: so they are compared byte by byte (a call or return takes 75 ns, and 95 by words).
    fn has_argument(&self, label: Label) -> bool
        ensures { result ≡ holds self.now.labels label }
    {
        self.labels().iter().any(|held| held.object == label.object && held.class == label.class)
    }

    /// A label joins the frame of a call that is made.
    pub(crate) fn insert_argument(&mut self, label: Label)
        requires { length self.old.labels < FRAME_LABELS }
        ensures { self.new ≡ record self.old { labels = add_label self.old.labels label } }
    {
        if !self.has_argument(label) {
            self.push_label(label);
        }
    }

    /// A label joins the running frame; one that is there already needs no room.
    pub fn add_label(&mut self, label: Label) -> Result<(), Refusal>
        ensures outcome { outcome_of result self.new ≡ join self.old label }
        ensures refused { OnErr result (self.new ≡ self.old) }
    {
        if self.holds(label) {
            return Ok(());
        }
        if self.labels().len() == FRAME_LABELS {
            return Err(Refusal::NoRoom);
        }
        self.push_label(label);
        Ok(())
    }

    /// Whether the link is there.
    pub fn is_linked(&self, link: Link) -> bool
        ensures { result ≡ is_linked self.now.links link }
    {
        self.links().contains(&link)
    }

    /// A link joins the links, where there is room left for one that is new.
    pub fn insert_link(&mut self, link: Link)
        requires { IsTrue (has_link_room self.old.links link) }
        ensures { self.new ≡ record self.old { links = insert_link self.old.links link } }
    {
        if !self.is_linked(link) {
            self.links[self.link_count] = link;
            self.link_count += 1;
        }
    }

    /// A link joins the links; one that is there already needs no room.
    pub fn add_link(&mut self, link: Link) -> Result<(), Refusal>
        ensures outcome { outcome_of result self.new ≡ connect self.old link }
        ensures refused { OnErr result (self.new ≡ self.old) }
    {
        if self.is_linked(link) {
            return Ok(());
        }
        if self.link_count == LINKS {
            return Err(Refusal::NoRoom);
        }
        self.links[self.link_count] = link;
        self.link_count += 1;
        Ok(())
    }

    /// The object joins the pool.
    pub fn declare(&mut self, object: u8, class: u8)
        ensures { self.new ≡ declared self.old object class }
    {
        self.pool[object as usize] = Some(class);
    }

    /// The object joins the pool, and the running frame has it at its class.
    pub fn add_object(&mut self, object: u8, class: u8) -> Result<(), Refusal>
        ensures outcome { outcome_of result self.new ≡ with_object (join self.old (label_of object class)) object class }
        ensures refused { OnErr result (self.new ≡ self.old) }
    {
        self.add_label(Label { object, class })?;
        self.declare(object, class);
        Ok(())
    }

    /// Saves the running frame, which waits for an object of a class or for nothing, and runs a method over an empty one.
    pub fn push(&mut self, method: u8, pending: Option<u8>)
        requires { length self.old.saved < SAVED_FRAMES }
        ensures { self.new ≡ called self.old method pending }
    {
        self.saved[self.depth] = Saved {
            method: self.method,
            pending,
            label_count: self.label_count,
        };
        self.depth += 1;
        self.label_count = 0;
        self.method = method;
    }

    /// What the newest saved frame waits for, if there is one.
    pub(crate) fn pending(&self) -> Option<Option<u8>>
        ensures { result ≡ pending_in self.now.saved }
    {
        if self.depth == 0 {
            return None;
        }
        Some(self.saved[self.depth - 1].pending)
    }

    /// The labels of the newest saved frame.
    pub(crate) fn caller_labels(&self) -> &[Label]
        requires { 0 < length self.now.saved }
        ensures { result.now ≡ (resumed self.now self.now.saved).labels }
    {
        let depth = self.depth - 1;
        frame(&self.labels, depth, self.saved[depth].label_count)
    }

    /// Runs the newest saved frame again.
    pub(crate) fn pop(&mut self)
        requires { 0 < length self.old.saved }
        ensures { self.new ≡ resumed self.old self.old.saved }
    {
        clear(&mut self.labels, self.depth);
        self.depth -= 1;
        let caller = self.saved[self.depth];
        self.saved[self.depth] = Saved {
            method: 0,
            pending: None,
            label_count: 0,
        };
        self.label_count = caller.label_count;
        self.method = caller.method;
    }
}
