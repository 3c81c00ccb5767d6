// Words, and numbers behind them.
ghost use Rattle.std.specs.Prelude.{◌≡◌, ◌++◌, codes, decimal, OnOk};
ghost use Rattle.dl_token.specs.Links as numbers;

use dl_base::{LinkNo, List, Memory, Path};
use dl_token::{link_text, transaction_text};

pub fn put_number(into: &mut List<u8>, number: u64) -> Result<(), Memory>
    ensures { OnOk result (into.new ≡ into.old ++ decimal number) }
{
    let mut buffer = itoa::Buffer::new();
    into.extend(buffer.format(number).as_bytes())
}

pub fn put_with(into: &mut List<u8>, words: &[u8], bytes: &[u8]) -> Result<(), Memory>
    ensures { OnOk result (into.new ≡ into.old ++ (words.now ++ bytes.now)) }
{
    into.extend(words)?;
    into.extend(bytes)
}

pub fn put_with_number(into: &mut List<u8>, words: &[u8], number: u64) -> Result<(), Memory>
    ensures { OnOk result (into.new ≡ into.old ++ (words.now ++ decimal number)) }
{
    into.extend(words)?;
    put_number(into, number)
}

// The number of a transaction, with its dash.
pub fn put_with_transaction(into: &mut List<u8>, words: &[u8], tx: u64) -> Result<(), Memory>
    ensures { OnOk result (into.new ≡ into.old ++ (words.now ++ numbers.transaction_text tx)) }
{
    into.extend(words)?;
    into.extend(transaction_text(tx).bytes())
}

// The number of a link, with its dashes.
pub fn put_with_link(into: &mut List<u8>, words: &[u8], link: LinkNo) -> Result<(), Memory>
    ensures { OnOk result (into.new ≡ into.old ++ (words.now ++ numbers.link_text link)) }
{
    into.extend(words)?;
    into.extend(link_text(link).bytes())
}

pub fn put_two_numbers(
    into: &mut List<u8>,
    words: &[u8],
    first: u64,
    between: &[u8],
    second: u64,
) -> Result<(), Memory>
    ensures { OnOk result (into.new ≡ into.old ++ (words.now ++ decimal first ++ between.now ++ decimal second)) }
{
    put_with_number(into, words, first)?;
    put_with_number(into, between, second)
}

// A path, and the number of a link on it.
pub fn put_linked(
    into: &mut List<u8>,
    words: &[u8],
    path: &Path,
    link: LinkNo,
) -> Result<(), Memory>
    ensures { OnOk result (into.new ≡ into.old ++ (words.now ++ path.now ++ codes " " ++ numbers.link_text link)) }
{
    put_with(into, words, path.bytes())?;
    put_with_link(into, b" ", link)
}
