// Which lines are not built yet.
ghost use Rattle.std.specs.Prelude.{◌≡◌};
ghost use Rattle.meaning_run.specs.Built as meant;

use run_script::{Line, Order};

// Whether a line is built: all but those that crash, or settle what a crash left.
pub(crate) fn is_built(line: &Line) -> bool
    ensures { result ≡ meant.is_built line.now }
{
    match line {
        Line::System(order) => is_built_order(*order),
        Line::Nothing | Line::Session(_, _) | Line::File(_) | Line::Bad(_) => true,
    }
}

fn is_built_order(order: Order) -> bool
    ensures { result ≡ meant.is_built_order order }
{
    match order {
        Order::Tick(_) | Order::Archive | Order::Backup | Order::Restore(_) => true,
        Order::CrashManager | Order::CrashDatabase | Order::CrashBoth | Order::Resolve => false,
    }
}
