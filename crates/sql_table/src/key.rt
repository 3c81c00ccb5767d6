// Keys that an index has: a value in a key column that is a whole number or a text.
ghost use Rattle.std.specs.Prelude.{◌≡◌, ◌++◌, [], pos, IfOk, OnOk};
ghost use Rattle.sql_table.specs.Keys.{cell_keys, key_marks, number_rank, text_rank, value_keys};

use dl_base::{Column, ColumnRule, Copied, List, Memory, Row, Text, Value};
use dl_pages::{Ordered, Probe, Ranked};
use std::alloc::Global;
use std::cmp::Ordering;
use std::marker::Model;
use std::sync::Arc;

/// A whole number (kind 0) or a text (kind 1). Copies share the text, so a copy costs one count at most; and the hash of a text is
/// made once, with its key.
#[derive(Drop)]
pub(crate) struct Key {
    held: Held,
}

#[derive(Drop)]
enum Held {
    Number(i64),
    Text { hash: u64, text: Arc<Text> },
}

impl Model for Key {
    ghost use Rattle.sql_table.specs.KeySeen.{Key, seen};

    ghost Value = { Key };

    ghost view = { λ k. seen k.held };

    ghost use Rattle.sql_table.specs.Keys.{HasHash};

    ghost invariant = { λ k. HasHash k.held };
}

impl Key {
    fn of_number(number: i64) -> Key
        ensures { result ≡ record { kind = 0; number = number; text = [] } }
    {
        Key {
            held: Held::Number(number),
        }
    }

    fn of_text(alloc: Global, text: Text) -> Result<Key, Memory>
        ensures { IfOk result (λ made. made ≡ record { kind = 1; number = pos 0; text = text }) }
    {
        let hash = text_rank(text.bytes());
        Ok(Key {
            held: Held::Text {
                hash,
                text: Arc::new(alloc, text)?,
            },
        })
    }

    fn kind(&self) -> u8
        ensures { result ≡ self.now.kind }
    {
        match &self.held {
            Held::Number(_) => 0,
            Held::Text { .. } => 1,
        }
    }

    // The number; 0 of a text.
    fn number(&self) -> i64
        ensures { result ≡ self.now.number }
    {
        match &self.held {
            Held::Number(number) => *number,
            Held::Text { .. } => 0,
        }
    }

    // The bytes of the text; none of a number.
    fn bytes(&self) -> &[u8]
        ensures { result.now ≡ self.now.text }
    {
        match &self.held {
            Held::Number(_) => &[],
            Held::Text { text, .. } => text.bytes(),
        }
    }
}

impl Copied for Key {
    fn copy(&self) -> Result<Key, Memory> {
        match &self.held {
            Held::Number(number) => Ok(Key::of_number(*number)),
            Held::Text { hash, text } => Ok(Key {
                held: Held::Text {
                    hash: *hash,
                    text: Arc::try_clone(text)?,
                },
            }),
        }
    }
}

impl Ranked for Key {
    ghost use Rattle.sql_table.specs.Keys.{key_rank};

    ghost rank = { key_rank };

    fn rank(&self) -> u64 {
        match &self.held {
            Held::Number(number) => number_rank(*number),
            Held::Text { hash, .. } => *hash,
        }
    }

    fn prefetch(&self) {
        if let Held::Text { text, .. } = &self.held {
            let _ = Arc::strong_count(text);
        }
    }
}

impl Ordered for Key {
    ghost use Rattle.std.proofs.lemmas.Cmp.{then_total, on_total, nat_cmp_total, int_cmp_total, nat_list_cmp_total};
    ghost use Rattle.dl_pages.specs.Orders.{ranked_follows};
    ghost use Rattle.sql_table.specs.Keys.{key_order, key_rank, plain_key_order};

    ghost order = { key_order };

    fn order(&self, other: &Key) -> Ordering {
        match self.rank().cmp(&other.rank()) {
            Ordering::Equal => match self.kind().cmp(&other.kind()) {
                Ordering::Equal => match self.number().cmp(&other.number()) {
                    Ordering::Equal => self.bytes().cmp(other.bytes()),
                    unlike => unlike,
                },
                unlike => unlike,
            },
            unlike => unlike,
        }
    }

    ghost total = { then_total (on_total key_rank nat_cmp_total) (then_total (on_total (λ a. a.kind) nat_cmp_total) (then_total (on_total (λ a. a.number) int_cmp_total) (on_total (λ a. a.text) nat_list_cmp_total))) };

    ghost follows = { ranked_follows key_rank plain_key_order };
}

// The rank of a whole number is itself, shifted to be unsigned, so entries whose numbers rise lie together.
fn number_rank(number: i64) -> u64
    ensures { result ≡ number_rank number }
{
    number.cast_unsigned().wrapping_add(1 << 63)
}

// The rank of a text is a hash of its bytes. Texts often begin alike, so their first bytes would tell few of them apart; and an index
// is asked for equal keys alone, so texts may be in any order.
fn text_rank(bytes: &[u8]) -> u64
    ensures { result ≡ text_rank bytes.now }
{
    bytes.iter().fold(1u64, |made, byte| {
        made.wrapping_mul(1_099_511_628_211)
            .wrapping_add(u64::from(*byte))
    })
}

/// A key that is looked for, by a text's bytes. Contracts see the key; its rank is made once, with it.
#[derive(Drop)]
pub(crate) struct KeyProbe<'a> {
    kind: u8,
    number: i64,
    text: &'a [u8],
    rank: u64,
}

impl<'a> Model for KeyProbe<'a> {
    ghost use Rattle.std.specs.Prelude.{◌≡◌};
    ghost use Rattle.sql_table.specs.KeySeen.{Key};

    ghost Value = { Key };

    ghost view = { λ p. record { kind = p.kind; number = p.number; text = p.text.now } };

    ghost use Rattle.sql_table.specs.Keys.{rank_of};

    ghost invariant = { λ p. p.rank ≡ rank_of p.kind p.number p.text.now };
}

/// A whole number that is looked for.
pub(crate) fn number_probe<'a>(number: &i64) -> KeyProbe<'a>
    ensures { result ≡ record { kind = 0; number = number.now; text = [] } }
{
    KeyProbe {
        kind: 0,
        number: *number,
        text: &[],
        rank: number_rank(*number),
    }
}

/// A text that is looked for, by its bytes.
pub(crate) fn text_probe(text: &[u8]) -> KeyProbe<'_>
    ensures { result ≡ record { kind = 1; number = pos 0; text = text.now } }
{
    KeyProbe {
        kind: 1,
        number: 0,
        text,
        rank: text_rank(text),
    }
}

impl Probe<Key> for KeyProbe<'_> {
    ghost key = { λ p. p };

    fn compare(&self, other: &Key) -> Ordering {
        match other.rank().cmp(&self.rank) {
            Ordering::Equal => match other.kind().cmp(&self.kind) {
                Ordering::Equal => match other.number().cmp(&self.number) {
                    Ordering::Equal => other.bytes().cmp(self.text),
                    unlike => unlike,
                },
                unlike => unlike,
            },
            unlike => unlike,
        }
    }

    fn rank(&self) -> u64 {
        self.rank
    }
}

/// The keys of a row.
#[tactic(auto, using(crate::proofs::Asking::no_keys_past_the_end))]
pub(crate) fn row_keys(columns: &List<Column>, row: &Row) -> Result<List<Key>, Memory>
    ensures { IfOk result (λ made. made ≡ key_marks columns.now row.now) }
{
    let mut made = List::empty(columns.allocator());
    let values = row.values.as_slice();
    for (i, column) in columns.as_slice().iter().enumerate() {
        if values.len() <= i {
            return Ok(made);
        }
        put_keys(&mut made, column.rule, &values[i])?;
    }
    Ok(made)
}

fn put_keys(made: &mut List<Key>, rule: ColumnRule, value: &Value) -> Result<(), Memory>
    ensures { OnOk result (made.new ≡ made.old ++ cell_keys rule value.now) }
{
    match rule {
        ColumnRule::Key => put_value(made, value),
        ColumnRule::Plain => Ok(()),
        ColumnRule::NotNull => Ok(()),
    }
}

fn put_value(made: &mut List<Key>, value: &Value) -> Result<(), Memory>
    ensures { OnOk result (made.new ≡ made.old ++ value_keys value.now) }
{
    match value {
        Value::Int(z) => {
            made.push(Key::of_number(*z))?;
            Ok(())
        }
        Value::Text(text) => {
            made.push(Key::of_text(made.allocator(), text.copy()?)?)?;
            Ok(())
        }
        Value::Null => Ok(()),
        Value::Link(_) => Ok(()),
    }
}
