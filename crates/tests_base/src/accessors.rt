// A text of a datalink, made once. Which text each accessor gives is said by worked rows.
use crate::made::{path, text};
use dl_base::Dl;
use dl_location::{Accessor, accessor_text};
use std::alloc::Global;

fn film(alloc: Global) -> Option<Dl> {
    let location = text(alloc, b"http://fs1/Film/1.mpg")?;
    let path = path(alloc, b"/Film/1.mpg")?;
    let comment = text(alloc, b"a comment")?;
    Some(Dl {
        location,
        path,
        comment,
        link: None,
    })
}

fn gives(alloc: Global, which: Accessor, want: &[u8]) -> Option<bool> {
    let link = film(alloc)?;
    let got = accessor_text(alloc, which, &link).ok()?;
    Some(got.bytes() == want)
}

#[test]
fn server_and_location(rt: HostRuntime) {
    assert!(rt; gives(rt.alloc(), Accessor::Server, b"FS1") == Some(true));
    assert!(rt; gives(rt.alloc(), Accessor::Complete, b"http://fs1/Film/1.mpg") == Some(true));
}
