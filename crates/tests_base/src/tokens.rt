// A text with a token, made and read once. What tokens are worth, and which texts have one, is said by worked rows.
use dl_base::Token;
use dl_token::{read_token, with_token};
use std::alloc::Global;

const SEVEN: Token = Token {
    expiry: 7,
    mac: [0; 16],
};

fn is_put(alloc: Global, text: &[u8], want: &[u8]) -> Option<bool> {
    let made = with_token(alloc, text, &SEVEN).ok()?;
    Some(made.bytes() == want)
}

fn is_read(alloc: Global, text: &[u8], want: &[u8]) -> Option<bool> {
    let (path, given) = read_token(alloc, text).ok()??;
    Some(path.bytes() == want && given.expiry == SEVEN.expiry && given.mac == SEVEN.mac)
}

#[test]
fn a_token_before_the_last_name(rt: HostRuntime) {
    let text = b"/x/7.00000000000000000000000000000000;a.b";
    assert!(rt; is_put(rt.alloc(), b"/x/a.b", text) == Some(true));
    assert!(rt; is_read(rt.alloc(), text, b"/x/a.b") == Some(true));
}
