// Tests of lists of links.
ghost use Rattle.std.specs.Prelude.{◌≡◌};
ghost use Rattle.compare_links.specs.Fitting.{are_drawn, is_drawn};

use dl_base::{LinkRow, List};

/// Whether the transaction that made each of some links is of no later opening. It takes no memory.
pub fn are_drawn(opening: u32, links: &List<LinkRow>) -> bool
    ensures { result ≡ are_drawn opening links.now }
{
    for link in links.as_slice() {
        if !is_drawn(opening, link) {
            return false;
        }
    }
    true
}

fn is_drawn(opening: u32, link: &LinkRow) -> bool
    ensures { result ≡ is_drawn opening link.now }
{
    link.link.tx / 4_294_967_296 <= u64::from(opening)
}
