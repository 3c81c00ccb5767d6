// How the numbers of transactions and links are printed.
ghost use Rattle.std.specs.Prelude.{◌≡◌, ◌<◌, ◌≤◌, ◌+◌, ◌^◌, ◌++◌, length, decimal};
ghost use Rattle.arrayvec.specs.ArrayVec.{array_vec_len};
ghost use Rattle.dl_token.specs.Links as meaning;

use arrayvec::ArrayVec;
use dl_base::LinkNo;
use itoa::Buffer;
use std::marker::Model;

/// A printed number of a transaction or a link. It takes no memory. Contracts see it as its bytes.
#[derive(Drop)]
pub struct NumberText {
    items: ArrayVec<u8, 32>,
}

impl Model for NumberText {
    ghost use Rattle.std.specs.Prelude.{List, ℕ};

    ghost Value = { List ℕ };

    ghost view = { λ t. t.items.items };
}

impl NumberText {
    /// Its bytes: decimal digits and dashes.
    pub fn bytes(&self) -> &[u8]
        ensures { result.now ≡ self.now }
    {
        self.items.as_slice()
    }
}

/// The number of a transaction as it is printed: the opening, a dash, and the count inside it, both in decimal.
/// It takes no memory.
pub fn transaction_text(tx: u64) -> NumberText
    ensures { result ≡ meaning.transaction_text tx }
{
    NumberText {
        items: transaction_items(tx),
    }
}

/// The number of a link as it is printed: that of its transaction, a dash, and the count inside the transaction.
/// It takes no memory.
pub fn link_text(link: LinkNo) -> NumberText
    ensures { result ≡ meaning.link_text link }
{
    let mut items = transaction_items(link.tx);
    put(&mut items, b"-");
    put_number(&mut items, u64::from(link.k));
    NumberText { items }
}

fn transaction_items(tx: u64) -> ArrayVec<u8, 32>
    ensures value { result.items ≡ meaning.transaction_text tx }
    ensures short { array_vec_len result ≤ 21 }
{
    let mut items = ArrayVec::new();
    put_number(&mut items, tx >> 32);
    put(&mut items, b"-");
    put_number(&mut items, tx & 0xffff_ffff);
    items
}

// A number below 2 to the 32nd has at most ten digits.
#[tactic(auto, using(crate::proofs::Digits::decimal_short))]
fn put_number(items: &mut ArrayVec<u8, 32>, n: u64)
    requires small { n < 2 ^ 32 }
    requires room { array_vec_len items.old ≤ 22 }
    ensures value { items.new.items ≡ items.old.items ++ decimal n }
    ensures short { array_vec_len items.new ≤ array_vec_len items.old + 10 }
{
    let mut buffer = Buffer::new();
    put(items, buffer.format(n).as_bytes());
}

fn put(items: &mut ArrayVec<u8, 32>, bytes: &[u8])
    requires { array_vec_len items.old + length bytes.now ≤ 32 }
    ensures value { items.new.items ≡ items.old.items ++ bytes.now }
    ensures len { array_vec_len items.new ≡ array_vec_len items.old + length bytes.now }
{
    let _ = items.try_extend_from_slice(bytes);
}
