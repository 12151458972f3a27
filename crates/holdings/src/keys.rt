// What is held, as numbers that rise as the lines do.
ghost use Rattle.std.specs.Prelude.{◌≡◌, ◌+◌, ◌≤◌, [], ◌++◌, map, length};
ghost use Rattle.meaning.specs.Tables.{home, owner_of};
ghost use Rattle.runs.specs.Holdings.{holding, key, Bytes};
ghost use Rattle.tables.specs.View.{view};
ghost use Rattle.holdings.specs.Held.{framed, linked, held, AllBytes};

use counted::Filled;
use machine::{Label, Link, State};
use tables::Tables;

/// All that a state can hold: 17 frames of 32 labels, and 256 links.
pub(crate) const MOST: usize = 800;

/// A domain, an object and a class as the bytes of one number.
#[tactic(auto, unfolding(runs::specs::Holdings::key))]
fn key_of(domain: u8, object: u8, class: u8) -> u32
    ensures key { result ≡ key (holding domain object class) }
    ensures bytes { Bytes (holding domain object class) }
{
    u32::from_be_bytes([0, domain, object, class])
}

/// The domain of a class; a number that none has answers like the root's.
#[tactic(auto, using(crate::proofs::Homes::looked), unfolding(meaning::specs::Tables::home))]
fn home(tables: &Tables, class: u8) -> u8
    ensures { result ≡ home (view tables.now) class }
{
    match tables.class(class) {
        Some(class) => class.domain,
        None => 0,
    }
}

/// The domain in which a method runs.
#[tactic(auto, using(crate::proofs::Homes::looked), unfolding(meaning::specs::Tables::owner_of))]
fn domain_of(tables: &Tables, method: u8) -> u8
    ensures { result ≡ home (view tables.now) (owner_of (view tables.now) method) }
{
    match tables.method(method) {
        Some(method) => home(tables, method.class),
        None => home(tables, 0),
    }
}

/// The keys of a method's frame join the others.
fn add_frame(keys: &mut Filled<u32, MOST>, tables: &Tables, method: u8, labels: &[Label])
    requires { length keys.old + length labels.now ≤ 800 }
    ensures keys { keys.new ≡ keys.old ++ map key (framed (view tables.now) method labels.now) }
    ensures bytes { AllBytes (framed (view tables.now) method labels.now) }
{
    let domain = domain_of(tables, method);
    for label in labels {
        keys.push(key_of(domain, label.object, label.class));
    }
}

/// The keys of the links' targets join the others: each is held by the domain of the class that declares the link's field.
fn add_links(keys: &mut Filled<u32, MOST>, tables: &Tables, links: &[Link])
    requires { length keys.old + length links.now ≤ 800 }
    ensures keys { keys.new ≡ keys.old ++ map key (map (linked (view tables.now)) links.now) }
    ensures bytes { AllBytes (map (linked (view tables.now)) links.now) }
{
    for link in links {
        keys.push(key_of(home(tables, link.declared), link.target, link.typ));
    }
}

/// The keys of all that a state holds: of the running frame, of the saved ones, the newest first, and of the links.
pub(crate) fn add_all(keys: &mut Filled<u32, MOST>, tables: &Tables, state: &State)
    requires { keys.old ≡ [] }
    ensures keys { keys.new ≡ map key (held (view tables.now) state.now) }
    ensures bytes { AllBytes (held (view tables.now) state.now) }
    ensures few { length keys.new ≤ 800 }
{
    add_frame(keys, tables, state.method(), state.labels());
    for place in 0..state.depth() {
        add_frame(
            keys,
            tables,
            state.saved_method(place),
            state.saved_labels(place),
        );
    }
    add_links(keys, tables, state.links());
}
