//! The kinds of words in a line.
ghost use Rattle.std.specs.Prelude.{◌≡◌};
ghost use Rattle.uug_sim_script.specs.Remarks.{noun, wanted};

/// The kind of a word in a line.
#[derive(Clone, Copy, Debug, PartialEq, Eq)]
pub(crate) enum Field {
    /// `caller` or `called`.
    Side,
    /// A name.
    Name,
    /// A window.
    Window,
    /// A packet size.
    Size,
    /// A mode.
    Mode,
    /// Bytes in hexadecimal digits.
    Bytes,
    /// A number of bytes.
    Count,
    /// A number of turns.
    Turns,
    /// The number of a conversation.
    Number,
    /// A byte in hexadecimal digits.
    Byte,
    /// The bytes of the greatest file.
    Limit,
}

impl Field {
    /// Returns the noun for the kind.
    pub(crate) fn noun(self) -> &'static str
        ensures { result.now ≡ noun self }
    {
        match self {
            Field::Side => "side",
            Field::Name => "name",
            Field::Window => "window",
            Field::Size => "packet size",
            Field::Mode => "mode",
            Field::Bytes => "hex",
            Field::Count | Field::Turns | Field::Number => "number",
            Field::Byte => "byte",
            Field::Limit => "limit",
        }
    }

    /// Returns a description of the words that fit.
    pub(crate) fn wanted(self) -> &'static str
        ensures { result.now ≡ wanted self }
    {
        match self {
            Field::Side => "caller or called",
            Field::Name => "1 to 200 visible ASCII characters",
            Field::Window => "1 to 7",
            Field::Size => "32, 64, 128, 256, 512, 1024, 2048 or 4096",
            Field::Mode => "1 to 4 octal digits",
            Field::Bytes => "pairs of hexadecimal digits, or -",
            Field::Count => "0 to 1000000000",
            Field::Turns => "0 to 100000",
            Field::Number => "0 to 4294967295",
            Field::Byte => "2 hexadecimal digits",
            Field::Limit => "1 to 268435456",
        }
    }
}
