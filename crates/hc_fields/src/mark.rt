//! Where the line of a field stands in a text.
ghost use Rattle.std.specs.Prelude.{◌≡◌, ◌+◌, ◌<◌, ◌≤◌, ◌^◌, length};
ghost use Rattle.hc_fields.specs.Lines.{field_text};
ghost use Rattle.hc_fields.specs.Marks.{field_at, IsLineAt, mark_of};

/// Where the line of a field stands in a text: its name begins at `start` and ends at the colon, and
/// its value ends at the line feed.
#[derive(Clone, Copy)]
pub(crate) struct Mark {
    pub(crate) start: usize,
    pub(crate) colon: usize,
    pub(crate) end: usize,
}

impl Mark {
    /// The mark of a line that begins at `start`, with a name and a value of so many bytes.
    pub(crate) fn new(start: usize, name_len: usize, value_len: usize) -> Mark
        requires { start + name_len + 2 + value_len < 2 ^ 64 }
        ensures { result ≡ mark_of start name_len value_len }
    {
        let colon = start + name_len;
        Mark {
            start,
            colon,
            end: colon + 2 + value_len,
        }
    }

    /// The name.
    #[tactic(auto, unfolding(crate::specs::Marks::field_at))]
    pub(crate) fn name<'a>(&self, text: &'a [u8]) -> &'a [u8]
        requires { IsLineAt text.now self.now }
        ensures { result.now ≡ (field_at text.now self.now).0 }
    {
        &text[self.start..self.colon]
    }

    /// The value.
    #[tactic(auto, unfolding(crate::specs::Marks::field_at))]
    pub(crate) fn value<'a>(&self, text: &'a [u8]) -> &'a [u8]
        requires { IsLineAt text.now self.now }
        ensures { result.now ≡ (field_at text.now self.now).1 }
    {
        &text[self.colon + 2..self.end]
    }

    /// The whole line, with its line feed.
    pub(crate) fn line<'a>(&self, text: &'a [u8]) -> &'a [u8]
        requires { IsLineAt text.now self.now }
        ensures { result.now ≡ field_text (field_at text.now self.now) }
    {
        &text[self.start..self.end + 1]
    }
}
