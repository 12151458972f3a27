//! Which domain dominates which.
ghost use Rattle.std.specs.Prelude.{◌≡◌, ◌≤◌};
ghost use Rattle.std.specs.List.{fold};
ghost use Rattle.tables.specs.View.{view};
ghost use Rattle.relation.specs.Fold.{up_to};
ghost use Rattle.trust.specs.Relations.{dominance_rows};
ghost use Rattle.trust.specs.Turns.{start_at, list_pair};

use relation::{Narrow, Relation, close};
use tables::Tables;

// Each domain dominates itself and the root.
fn add_root(rows: &mut Narrow, domains: usize)
    requires { domains ≤ 32 }
    ensures { rows.new ≡ up_to domains start_at rows.old }
{
    for domain in 0..domains {
        rows.add(domain, domain);
        rows.add(0, domain);
    }
}

// Each pair is listed.
#[tactic(auto, using(crate::proofs::Closure::low_fits, crate::proofs::Closure::high_fits))]
fn add_pairs(rows: &mut Narrow, tables: &Tables)
    ensures { rows.new ≡ fold list_pair rows.old tables.now.pairs }
{
    for pair in tables.pairs() {
        rows.add(usize::from(pair.low), usize::from(pair.high));
    }
}

/// Row e has the bit d exactly where E ► D.
pub fn dominance(tables: &Tables) -> Narrow
    ensures { result ≡ dominance_rows (view tables.now) }
{
    let domains = usize::from(tables.domains());
    let mut rows = Narrow::new();
    add_root(&mut rows, domains);
    add_pairs(&mut rows, tables);
    close(&mut rows, domains);
    rows
}
