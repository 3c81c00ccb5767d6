//! Access tokens of files (HMAC, RFC 2104, over SHA-256, FIPS 180-4): their text before the last name of a path, and what
//! they are worth; and the printed number of a link, over which a token is made.
#![tactic(auto)]

mod form;
mod given;
mod hmac;
mod laws;
mod printed;
mod verdict;

pub use form::{has_token_form, read_token};
pub use given::{expiry_after, token, verify, with_token};
pub use hmac::hmac_sha256;
pub use laws::{form_is_of_a_token, reading_is_of_a_path};
pub use printed::{NumberText, link_text, transaction_text};
pub use verdict::Verdict;
