//! Which classes are suspicious: neither trusts the other.
ghost use Rattle.std.specs.Prelude.{◌≡◌, ◌≤◌, ◌<◌, length};
ghost use Rattle.tables.specs.View.{view};
ghost use Rattle.relation.specs.Fold.{up_to};
ghost use Rattle.trust.specs.Relations.{dominance_rows, suspicion_rows, suspect_rows};
ghost use Rattle.trust.specs.Turns.{apart_in, lay_at, gather_at, spread_at};

use crate::classes::fill;
use relation::{Narrow, Relation, Wide};
use tables::Tables;

// Whether neither of two domains dominates the other.
fn are_apart(dominance: &Narrow, first: usize, second: usize) -> bool
    requires first_below { first < 32 }
    requires second_below { second < 32 }
    ensures { result ≡ apart_in dominance.now first second }
{
    !dominance.has(first, second) && !dominance.has(second, first)
}

// Each class has its bit in the row of its domain.
#[tactic(auto, using(crate::proofs::Declared::domain_fits))]
fn lay(rows: &mut Wide, tables: &Tables)
    ensures { rows.new ≡ up_to (length tables.now.classes) (lay_at (view tables.now)) rows.old }
{
    for (number, class) in tables.classes().iter().enumerate() {
        rows.add(usize::from(class.domain), number);
    }
}

// The row of a domain gets the classes of the domains that are apart from it.
fn gather(rows: &mut Wide, dominance: &Narrow, lying: &Wide, domain: usize, domains: usize)
    requires few { domains ≤ 32 }
    requires below { domain < domains }
    ensures { rows.new ≡ gather_at dominance.now lying.now domains domain rows.old }
{
    for other in 0..domains {
        if are_apart(dominance, domain, other) {
            rows.join_from(domain, lying, other);
        }
    }
}

// The row of each class gets that of its domain.
#[tactic(auto, using(crate::proofs::Declared::domain_fits))]
fn spread(rows: &mut Wide, found: &Wide, tables: &Tables)
    ensures { rows.new ≡ up_to (length tables.now.classes) (spread_at (view tables.now) found.now) rows.old }
{
    for (number, class) in tables.classes().iter().enumerate() {
        rows.join_from(number, found, usize::from(class.domain));
    }
}

// Row a has the bit b exactly where A and B are suspicious. Suspicion is a matter of domains, so it is found domain by domain.
pub(crate) fn suspicion(tables: &Tables, dominance: &Narrow) -> Wide
    requires { dominance.now ≡ dominance_rows (view tables.now) }
    ensures { result ≡ suspicion_rows (view tables.now) }
{
    let domains = usize::from(tables.domains());
    let mut lying = Wide::new();
    lay(&mut lying, tables);
    let mut found = Wide::new();
    for domain in 0..domains {
        gather(&mut found, dominance, &lying, domain, domains);
    }
    let mut rows = Wide::new();
    spread(&mut rows, &found, tables);
    rows
}

// Makes of the rows of suspicion those where row a has the bit b exactly where B and some supertype of A are suspicious.
pub(crate) fn spread_down(rows: &mut Wide, tables: &Tables)
    requires { rows.old ≡ suspicion_rows (view tables.now) }
    ensures { rows.new ≡ suspect_rows (view tables.now) }
{
    fill(rows, tables, tables.classes().len());
}
