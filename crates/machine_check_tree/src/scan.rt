// The scan of the records in walking order, which carries a path.
ghost use Rattle.std.specs.Prelude.{◌≡◌, ◌+◌, ◌<◌, get_or};
ghost use Rattle.table.specs.Areas.{TableLong};
ghost use Rattle.machine.specs.Records.{level_fits};
ghost use Rattle.machine.specs.Words.{MachineLong};
ghost use Rattle.machine_check_paths.specs.Scan.{Ready, Going, Made, Stepped, whole, maker_for, stepped_path};

use machine::{CHILD, LEVEL, LIVE, OWN};
use machine_check_paths::{Path, block_of, settle};
use table_child_fields::pick::{Coming, Maker, pick};
use table_child_fields::routines::owned_by;
use words::number;

#[tactic(auto, unfolding(machine::specs::Records::level_fits))]
fn level_fits(forked: bool, level: usize, depth: usize) -> bool
    requires { level < 4294967296 }
    ensures { result ≡ level_fits forked level depth }
{
    if forked {
        return level + 1 == depth;
    }
    level < depth
}

// The child field that made the k-th record, if it is one that may still come.
fn made_by(t: &[u32], m: &[u32], k: usize, p: Path) -> Option<Maker>
    requires { TableLong t.now × MachineLong m.now × (k < get_or m.now 3 0) × Ready t.now m.now × Going t.now m.now k p }
    ensures { (result ≡ maker_for t.now m.now k p) × Made t.now m.now k p result }
{
    let at = block_of(m, k);
    let level = number(m[at + LEVEL]);
    if !level_fits(p.forked, level, p.depth) {
        return None;
    }
    let child = number(m[at + CHILD]);
    pick(t, p.levels[level], child)
}

// The path after the k-th record: is it a child that may come now, with its own variables, asleep?
fn step(t: &[u32], m: &[u32], k: usize, p: Path) -> Option<Path>
    requires { TableLong t.now × MachineLong m.now × (k < get_or m.now 3 0) × Ready t.now m.now × Going t.now m.now k p }
    ensures { (result ≡ stepped_path t.now m.now k p) × Stepped t.now m.now (k + 1) result }
{
    let made = made_by(t, m, k, p)?;
    let at = block_of(m, k);
    let owned = owned_by(t, made.routine);
    if number(m[at + OWN]) != owned {
        return None;
    }
    settle(t, m, k, p, made)
}

// Is the list of the records in order that of a tree?
pub fn tree_passes(t: &[u32], m: &[u32]) -> bool
    requires { TableLong t.now × MachineLong m.now × Ready t.now m.now }
    ensures { result ≡ whole t.now m.now }
{
    let n = number(m[LIVE]);
    // Main's frame: the words 3 and 4 of a table are 0, and read as a head that calls routine 0.
    let main = Coming {
        next: 0,
        head: 3,
        left: 1,
    };
    let mut path = Path {
        forked: false,
        depth: 1,
        levels: [main; 11],
    };
    for k in 0..n {
        let Some(next) = step(t, m, k, path) else {
            return false;
        };
        path = next;
    }
    !path.forked
}
