// Bytes of a message as a line shows them: printable ones as they are, the others and what would be ambiguous as \xNN. The library's
// `escape_ascii` writes tabs, line ends and quotes in ways of their own.
use header::Pair;
use std::fmt;

// A backslash is doubled.
#[derive(Clone, Copy)]
pub struct Escaped<'a>(pub &'a [u8]);

// NAME=VALUE; an equals sign in the name is escaped too, so that the first one parts them.
#[derive(Clone, Copy)]
pub struct EscapedPair<'n, 'v>(pub Pair<'n, 'v>);

fn write_byte<W: fmt::Write>(f: &mut fmt::Formatter<W>, byte: u8) -> fmt::Result {
    match byte {
        b'\\' => f.write_str("\\\\"),
        0x20..=0x7e => f.write_char(byte as char),
        _ => write!(f, "\\x{byte:02x}"),
    }
}

impl fmt::Display for Escaped<'_> {
    fn fmt<W: fmt::Write>(&self, f: &mut fmt::Formatter<W>) -> fmt::Result {
        for byte in self.0 {
            write_byte(f, *byte)?;
        }
        Ok(())
    }
}

impl fmt::Display for EscapedPair<'_, '_> {
    fn fmt<W: fmt::Write>(&self, f: &mut fmt::Formatter<W>) -> fmt::Result {
        for byte in self.0.name {
            if *byte == b'=' {
                f.write_str("\\x3d")?;
            } else {
                write_byte(f, *byte)?;
            }
        }
        let value = Escaped(self.0.value);
        write!(f, "={value}")
    }
}
