//! A law of the definitions. The function does nothing: what it ensures is the law.

ghost use Rattle.std.specs.Prelude.{◌≡◌, ◌<◌, ℕ, nat_eq, false, List, [], ◌∷◌, ◌++◌, length};
ghost use Rattle.std.specs.List.{list_any};
ghost use Rattle.group_map.specs.Lines.{line_feed, lines_of};

/// The lines of a text, from its front on. An empty text has none. What has no line feed is a line,
/// unless it is empty; so is what stands before the first line feed, and the lines of what stands
/// behind that follow.
pub fn lines_stand_before_line_feeds()
    ensures none { lines_of [] ≡ [] }
    ensures last { (line : List ℕ) → list_any (nat_eq line_feed) line ≡ false → 0 < length line
        → lines_of line ≡ line ∷ [] }
    ensures first { (line behind : List ℕ) → list_any (nat_eq line_feed) line ≡ false
        → lines_of (line ++ line_feed ∷ behind) ≡ line ∷ lines_of behind }
{}
