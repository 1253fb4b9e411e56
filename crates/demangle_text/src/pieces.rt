//! Pieces: where their texts are, how these are cut into the parts of a shape, and where the base name is.
ghost use Rattle.std.specs.Prelude.{◌≡◌, ◌+◌, ◌-◌, ◌^◌, ◌<◌, ◌≤◌, true};
ghost use Rattle.demangle_text.specs.Pieces.{place_at, layout_with, layout_end, own_at, own_of};
ghost use Rattle.demangle_text.specs.Pieces.{whole_outline, outline_of, IsAt, IsTailAt, Layout};
ghost use Rattle.demangle_text.specs.Shape.{moved};

/// What a declarator declares.
#[derive(Clone, Copy)]
pub enum Kind {
    /// An array, whose `after` holds its dimensions.
    Array,
    /// A function, whose `after` holds its parameters. Its base name is its whole text.
    Function,
}

/// Where bytes are inserted into a text.
#[derive(Clone, Copy)]
pub enum Place {
    /// In front of the text.
    Start,
    /// In front of the `)` of the group.
    Close,
    /// At the end of `before`, for a declarator without a group.
    Suffix,
    /// At the end of the text.
    End,
}

/// A text in a `Buffer`: its byte range, where its parts begin, and two flags. It stands for a shape. It is valid
/// until the next call that changes a text, or the next `close`, unless it is older than the innermost mark. `clear`
/// invalidates every piece.
#[derive(Clone, Copy)]
pub struct Piece {
    // The range of the text in the output or in the spill, in bytes.
    pub(crate) from_byte: usize,
    pub(crate) to_byte: usize,
    // The range of the base name. This and the further places count from the start of the piece's text.
    pub(crate) own_start: usize,
    pub(crate) own_end: usize,
    // For a declarator: the place of the `(` of its group, if it is grouped, and the place where `after` begins.
    pub(crate) group_start: usize,
    pub(crate) after_start: usize,
    // What the piece declares, or `None` for a plain shape.
    pub(crate) kind: Option<Kind>,
    // Whether a declarator has a group.
    pub(crate) grouped: bool,
    // Whether the text is in the spill.
    pub(crate) spilled: bool,
    // Whether the shape ends in template arguments.
    pub(crate) templ: bool,
    // Whether the shape names a constructor, a destructor or a conversion.
    pub(crate) ctor: bool,
}

/// A place in the output that `open` returns and `close` takes back.
#[derive(Drop)]
pub struct Mark {
    // The length of the output at this mark, and at the mark outside it, in bytes.
    pub(crate) inside_len: usize,
    pub(crate) outside_len: usize,
    ghost ordered: { outside_len ≤ inside_len },
}

impl Piece {
    // Returns a plain piece of these bytes of the output. Its base name is the whole text.
    #[inline(always)]
    pub(crate) fn whole_at(from: usize, to: usize) -> Piece
        requires ordered { from ≤ to }
        ensures stands { IsAt result from to }
        ensures outline { outline_of result ≡ whole_outline (to - from) }
    {
        Piece {
            from_byte: from,
            to_byte: to,
            own_start: 0,
            own_end: to - from,
            group_start: 0,
            after_start: 0,
            kind: None,
            grouped: false,
            spilled: false,
            templ: false,
            ctor: false,
        }
    }

    // Returns the length of the text in bytes.
    #[inline(always)]
    pub(crate) fn text_len(self) -> usize
        requires ordered { self.from_byte ≤ self.to_byte }
        ensures value { result ≡ self.to_byte - self.from_byte }
    {
        self.to_byte - self.from_byte
    }

    // Returns whether the piece is in the output, begins at the mark's byte or later, and ends at the byte `end`.
    #[inline(always)]
    pub(crate) fn is_tail(self, mark: usize, end: usize) -> bool
        ensures tail { result ≡ true → IsTailAt mark end self }
        ensures other { IsTailAt mark end self → result ≡ true }
    {
        !self.spilled && mark <= self.from_byte && self.to_byte == end
    }

    // Returns the byte of the text at which a place is.
    #[inline(always)]
    pub(crate) fn place(self, place: Place) -> usize
        requires ordered { self.from_byte ≤ self.to_byte }
        ensures value { result ≡ place_at place (outline_of self).layout (self.to_byte - self.from_byte) }
    {
        match place {
            Place::Start => 0,
            Place::Close if self.kind.is_some() => self.after_start.saturating_sub(1),
            Place::Suffix if self.kind.is_some() => self.after_start,
            _ => self.text_len(),
        }
    }

    // Returns the piece after n bytes were inserted at a place, which was the byte `at` of its text. The new text is
    // at these bytes of the output.
    #[inline(always)]
    pub(crate) fn with_bytes(
        self,
        place: Place,
        at: usize,
        n: usize,
        from: usize,
        to: usize,
    ) -> Piece
        requires text { from ≤ to }
        requires ordered { self.own_start ≤ self.own_end }
        requires within { place ≡ Place.End → self.own_end ≤ at }
        requires own_fits { self.own_end + n < 2 ^ 64 }
        requires layout_fits { layout_end (outline_of self).layout + n < 2 ^ 64 }
        ensures stands { IsAt result from to }
        ensures layout { (outline_of result).layout ≡ layout_with place n (outline_of self).layout }
        ensures own { (outline_of result).own
            ≡ own_at (outline_of self).layout (to - from) (moved at n (outline_of self).own) }
        ensures templ { result.templ ≡ self.templ }
        ensures ctor { result.ctor ≡ self.ctor }
    {
        // Bytes in front of the base name move it, and so do bytes at an empty one. Bytes inside make it longer.
        let (own_start, own_end) = match (self.kind, place) {
            (Some(Kind::Function), _) => (0, to - from),
            _ if at <= self.own_start => (self.own_start + n, self.own_end + n),
            (_, Place::End) => (self.own_start, self.own_end),
            _ if self.own_end <= at => (self.own_start, self.own_end),
            _ => (self.own_start, self.own_end + n),
        };
        let (group_start, after_start) = match place {
            Place::End => (self.group_start, self.after_start),
            _ if self.kind.is_none() => (self.group_start, self.after_start),
            Place::Start if self.grouped => (self.group_start + n, self.after_start + n),
            _ => (self.group_start, self.after_start + n),
        };
        let mut longer = self;
        longer.from_byte = from;
        longer.to_byte = to;
        longer.spilled = false;
        longer.own_start = own_start;
        longer.own_end = own_end;
        longer.group_start = group_start;
        longer.after_start = after_start;
        longer
    }

    // Returns the piece as a declarator.
    #[inline(always)]
    pub(crate) fn declared(self, kind: Kind, group: Option<usize>, at: usize) -> Piece
        requires ordered { self.from_byte ≤ self.to_byte }
        ensures home { result.spilled ≡ self.spilled }
        ensures begins { result.from_byte ≡ self.from_byte }
        ensures ends { result.to_byte ≡ self.to_byte }
        ensures layout { (outline_of result).layout ≡ Layout.Cut kind group at }
        ensures own { (outline_of result).own ≡ own_of kind (self.to_byte - self.from_byte) (outline_of self).own }
        ensures templ { result.templ ≡ self.templ }
        ensures ctor { result.ctor ≡ self.ctor }
    {
        let (own_start, own_end) = match kind {
            Kind::Function => (0, self.text_len()),
            Kind::Array => (self.own_start, self.own_end),
        };
        let mut declarator = self;
        declarator.own_start = own_start;
        declarator.own_end = own_end;
        declarator.group_start = group.unwrap_or(0);
        declarator.after_start = at;
        declarator.kind = Some(kind);
        declarator.grouped = group.is_some();
        declarator
    }
}
