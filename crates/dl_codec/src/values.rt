// How the values that the areas of tables and of links share lie in bytes.
use crate::read_fault::ReadFault;
use crate::spelled::Spelled;
use dl_base::{
    Column, ColumnRule, Dl, Kind, LinkNo, LinkRow, List, Memory, Name, OnUnlink, Options, Path,
    ReadBy, Text, Value, WriteBy,
};
use meaning_tables::is_option_row;
use std::alloc::Global;

#[tactic(auto, unfolding(crate::specs::Values::link_number))]
impl Spelled for LinkNo {
    ghost use Rattle.dl_codec.specs.Values.{link_number};

    ghost layout = { link_number };

    fn put(&self, into: &mut List<u8>) -> Result<(), Memory> {
        self.tx.put(into)?;
        self.k.put(into)
    }

    fn get(alloc: Global, bytes: &[u8]) -> Result<(LinkNo, &[u8]), ReadFault> {
        let ((tx, k), rest) = <(u64, u32)>::get(alloc, bytes)?;
        Ok((LinkNo { tx, k }, rest))
    }
}

impl Spelled for ReadBy {
    ghost use Rattle.dl_codec.specs.Values.{case, read_byte, read_of};

    ghost layout = { case read_byte read_of };

    fn put(&self, into: &mut List<u8>) -> Result<(), Memory> {
        match self {
            ReadBy::Fs => into.extend(&[0]),
            ReadBy::Db => into.extend(&[1]),
        }
    }

    fn get(_alloc: Global, bytes: &[u8]) -> Result<(ReadBy, &[u8]), ReadFault> {
        match bytes {
            [0, rest @ ..] => Ok((ReadBy::Fs, rest)),
            [1, rest @ ..] => Ok((ReadBy::Db, rest)),
            _ => Err(ReadFault::Bad),
        }
    }
}

impl Spelled for WriteBy {
    ghost use Rattle.dl_codec.specs.Values.{case, write_byte, write_of};

    ghost layout = { case write_byte write_of };

    fn put(&self, into: &mut List<u8>) -> Result<(), Memory> {
        match self {
            WriteBy::Fs => into.extend(&[0]),
            WriteBy::Blocked => into.extend(&[1]),
            // No byte stands for it.
            WriteBy::Admin => Err(Memory),
        }
    }

    fn get(_alloc: Global, bytes: &[u8]) -> Result<(WriteBy, &[u8]), ReadFault> {
        match bytes {
            [0, rest @ ..] => Ok((WriteBy::Fs, rest)),
            [1, rest @ ..] => Ok((WriteBy::Blocked, rest)),
            _ => Err(ReadFault::Bad),
        }
    }
}

impl Spelled for OnUnlink {
    ghost use Rattle.dl_codec.specs.Values.{case, unlink_byte, unlink_of};

    ghost layout = { case unlink_byte unlink_of };

    fn put(&self, into: &mut List<u8>) -> Result<(), Memory> {
        match self {
            OnUnlink::Nothing => into.extend(&[0]),
            OnUnlink::Restore => into.extend(&[1]),
            OnUnlink::Delete => into.extend(&[2]),
        }
    }

    fn get(_alloc: Global, bytes: &[u8]) -> Result<(OnUnlink, &[u8]), ReadFault> {
        match bytes {
            [0, rest @ ..] => Ok((OnUnlink::Nothing, rest)),
            [1, rest @ ..] => Ok((OnUnlink::Restore, rest)),
            [2, rest @ ..] => Ok((OnUnlink::Delete, rest)),
            _ => Err(ReadFault::Bad),
        }
    }
}

// The fields of options, in the order in which they lie in bytes.
type OptionFields = (ReadBy, (WriteBy, (bool, OnUnlink)));

#[tactic(auto, unfolding(crate::specs::Values::options))]
impl Spelled for Options {
    ghost use Rattle.dl_codec.specs.Values.{options};

    ghost layout = { options };

    fn put(&self, into: &mut List<u8>) -> Result<(), Memory> {
        if !is_option_row(self) {
            return Err(Memory);
        }
        self.read.put(into)?;
        self.write.put(into)?;
        self.recovery.put(into)?;
        self.unlink.put(into)
    }

    fn get(alloc: Global, bytes: &[u8]) -> Result<(Options, &[u8]), ReadFault> {
        let ((read, (write, (recovery, unlink))), rest) = OptionFields::get(alloc, bytes)?;
        let options = Options {
            read,
            write,
            recovery,
            unlink,
        };
        if is_option_row(&options) {
            Ok((options, rest))
        } else {
            Err(ReadFault::Bad)
        }
    }
}

// The fields of a link, in the order in which they lie in bytes.
type LinkFields = (LinkNo, (Path, Options));

#[tactic(auto, unfolding(crate::specs::Values::link_row))]
impl Spelled for LinkRow {
    ghost use Rattle.dl_codec.specs.Values.{link_row};

    ghost layout = { link_row };

    fn put(&self, into: &mut List<u8>) -> Result<(), Memory> {
        self.link.put(into)?;
        self.path.put(into)?;
        self.options.put(into)
    }

    fn get(alloc: Global, bytes: &[u8]) -> Result<(LinkRow, &[u8]), ReadFault> {
        let ((link, (path, options)), rest) = LinkFields::get(alloc, bytes)?;
        Ok((
            LinkRow {
                link,
                path,
                options,
            },
            rest,
        ))
    }
}

impl Spelled for ColumnRule {
    ghost use Rattle.dl_codec.specs.Values.{case, rule_byte, rule_of};

    ghost layout = { case rule_byte rule_of };

    fn put(&self, into: &mut List<u8>) -> Result<(), Memory> {
        match self {
            ColumnRule::Plain => into.extend(&[0]),
            ColumnRule::NotNull => into.extend(&[1]),
            ColumnRule::Key => into.extend(&[2]),
        }
    }

    fn get(_alloc: Global, bytes: &[u8]) -> Result<(ColumnRule, &[u8]), ReadFault> {
        match bytes {
            [0, rest @ ..] => Ok((ColumnRule::Plain, rest)),
            [1, rest @ ..] => Ok((ColumnRule::NotNull, rest)),
            [2, rest @ ..] => Ok((ColumnRule::Key, rest)),
            _ => Err(ReadFault::Bad),
        }
    }
}

#[tactic(auto, unfolding(crate::specs::Values::kind))]
impl Spelled for Kind {
    ghost use Rattle.dl_codec.specs.Values.{kind};

    ghost layout = { kind };

    fn put(&self, into: &mut List<u8>) -> Result<(), Memory> {
        match self {
            Kind::Int => into.extend(&[1]),
            Kind::Text(most) => {
                into.extend(&[2])?;
                most.put(into)
            }
            Kind::Free => into.extend(&[3]),
            Kind::Linked(options) => {
                into.extend(&[4])?;
                options.put(into)
            }
        }
    }

    fn get(alloc: Global, bytes: &[u8]) -> Result<(Kind, &[u8]), ReadFault> {
        match bytes {
            [1, rest @ ..] => Ok((Kind::Int, rest)),
            [2, rest @ ..] => {
                let (most, rest) = u32::get(alloc, rest)?;
                Ok((Kind::Text(most), rest))
            }
            [3, rest @ ..] => Ok((Kind::Free, rest)),
            [4, rest @ ..] => {
                let (options, rest) = Options::get(alloc, rest)?;
                Ok((Kind::Linked(options), rest))
            }
            _ => Err(ReadFault::Bad),
        }
    }
}

// The fields of a column, in the order in which they lie in bytes.
type ColumnFields = (Name, (Kind, ColumnRule));

#[tactic(auto, unfolding(crate::specs::Values::column))]
impl Spelled for Column {
    ghost use Rattle.dl_codec.specs.Values.{column};

    ghost layout = { column };

    fn put(&self, into: &mut List<u8>) -> Result<(), Memory> {
        self.name.put(into)?;
        self.kind.put(into)?;
        self.rule.put(into)
    }

    fn get(alloc: Global, bytes: &[u8]) -> Result<(Column, &[u8]), ReadFault> {
        let ((name, (kind, rule)), rest) = ColumnFields::get(alloc, bytes)?;
        Ok((Column { name, kind, rule }, rest))
    }
}

// The fields of a datalink, in the order in which they lie in bytes.
type DatalinkFields = (Text, (Path, (Text, Option<LinkNo>)));

#[tactic(auto, unfolding(crate::specs::Values::datalink))]
impl Spelled for Dl {
    ghost use Rattle.dl_codec.specs.Values.{datalink};

    ghost layout = { datalink };

    fn put(&self, into: &mut List<u8>) -> Result<(), Memory> {
        self.location.put(into)?;
        self.path.put(into)?;
        self.comment.put(into)?;
        self.link.put(into)
    }

    fn get(alloc: Global, bytes: &[u8]) -> Result<(Dl, &[u8]), ReadFault> {
        let ((location, (path, (comment, link))), rest) = DatalinkFields::get(alloc, bytes)?;
        let datalink = Dl {
            location,
            path,
            comment,
            link,
        };
        Ok((datalink, rest))
    }
}

#[tactic(auto, unfolding(crate::specs::Values::value))]
impl Spelled for Value {
    ghost use Rattle.dl_codec.specs.Values.{value};

    ghost layout = { value };

    fn put(&self, into: &mut List<u8>) -> Result<(), Memory> {
        match self {
            Value::Null => into.extend(&[0]),
            Value::Int(number) => {
                into.extend(&[1])?;
                number.put(into)
            }
            Value::Text(text) => {
                into.extend(&[2])?;
                text.put(into)
            }
            Value::Link(datalink) => {
                into.extend(&[3])?;
                datalink.put(into)
            }
        }
    }

    fn get(alloc: Global, bytes: &[u8]) -> Result<(Value, &[u8]), ReadFault> {
        match bytes {
            [0, rest @ ..] => Ok((Value::Null, rest)),
            [1, rest @ ..] => {
                let (number, rest) = i64::get(alloc, rest)?;
                Ok((Value::Int(number), rest))
            }
            [2, rest @ ..] => {
                let (text, rest) = Text::get(alloc, rest)?;
                Ok((Value::Text(text), rest))
            }
            [3, rest @ ..] => {
                let (datalink, rest) = Dl::get(alloc, rest)?;
                Ok((Value::Link(datalink), rest))
            }
            _ => Err(ReadFault::Bad),
        }
    }
}
