//! Diffs of sources and of bytes to other spellings of their synonyms.

/// A source, and its diff; nothing where nothing changes.
pub(super) const SOURCES: &str = "
    - // Each synonym.
    - 0\"=J'\n => --- -\n+++ -\n@@ -1,1 +1,1 @@\n-0\"=J'\n+0\"EJ'\n
    - 0\"<J'\n => --- -\n+++ -\n@@ -1,1 +1,1 @@\n-0\"<J'\n+0\"LJ'\n
    - 0\">J'\n => --- -\n+++ -\n@@ -1,1 +1,1 @@\n-0\">J'\n+0\"GJ'\n
    - FDab$T\n => --- -\n+++ -\n@@ -1,1 +1,1 @@\n-FDab$T\n+@FS/ab//T\n
    - :FDab$T\n => --- -\n+++ -\n@@ -1,1 +1,1 @@\n-:FDab$T\n+:@FS/ab//T\n
    - @FDxabxT\n => --- -\n+++ -\n@@ -1,1 +1,1 @@\n-@FDxabxT\n+@FSxabxxT\n
    - @:FDxabxT\n => --- -\n+++ -\n@@ -1,1 +1,1 @@\n-@:FDxabxT\n+@:FSxabxxT\n
    - // A number before it stays, and the case of its letters.
    - 5fdab$T\n => --- -\n+++ -\n@@ -1,1 +1,1 @@\n-5fdab$T\n+5@fs/ab//T\n
    - @fdxabxT\n => --- -\n+++ -\n@@ -1,1 +1,1 @@\n-@fdxabxT\n+@fsxabxxT\n
    - FD$T\n => --- -\n+++ -\n@@ -1,1 +1,1 @@\n-FD$T\n+@FS///T\n
    - // The text has all delimiters but one, or all.
    - FD/|#+~a$T\n => --- -\n+++ -\n@@ -1,1 +1,1 @@\n-FD/|#+~a$T\n+@FS%/|#+~a%%T\n
    - FD/|a+$T\n => --- -\n+++ -\n@@ -1,1 +1,1 @@\n-FD/|a+$T\n+@FS#/|a+##T\n
    - FD/|#+~%$T\n =>\x20
    - // Two in a line, and in lines that aren't beside one another.
    - Q1\"=FDab$'\n => --- -\n+++ -\n@@ -1,1 +1,1 @@\n-Q1\"=FDab$'\n+Q1\"E@FS/ab//'\n
    - Q1\"=J'\nT\nQ2\">J'\n => --- -\n+++ -\n@@ -1,1 +1,1 @@\n-Q1\"=J'\n+Q1\"EJ'\n@@ -3,1 +3,1 @@\n-Q2\">J'\n+Q2\"GJ'\n
    - // A text over two lines and over three, and a name.
    - FDa^J\nb$T\n => --- -\n+++ -\n@@ -1,1 +1,1 @@\n-FDa^J\n+@FS/a^J\n@@ -2,1 +2,1 @@\n-b$T\n+b//T\n
    - FDa^J\nb^J\nc$T\n => --- -\n+++ -\n@@ -1,1 +1,1 @@\n-FDa^J\n+@FS/a^J\n@@ -3,1 +3,1 @@\n-c$T\n+c//T\n
    - F\n  Dab$T\n => --- -\n+++ -\n@@ -1,1 +1,1 @@\n-F\n+@F\n@@ -2,1 +2,1 @@\n-  Dab$T\n+  S/ab//T\n
    - // Without a line end.
    - 0\"=J' => --- -\n+++ -\n@@ -1,1 +1,1 @@\n-0\"=J'\n\\ No newline at end of file\n+0\"EJ'\n\\ No newline at end of file\n
    - T\n0\"=J' => --- -\n+++ -\n@@ -2,1 +2,1 @@\n-0\"=J'\n\\ No newline at end of file\n+0\"EJ'\n\\ No newline at end of file\n
    - 0\"=J'\nT => --- -\n+++ -\n@@ -1,1 +1,1 @@\n-0\"=J'\n+0\"EJ'\n
    - // A fault behind, after which nothing changes, also in the next command string.
    - 0\"=J'\n{\n0\"=J'\n => --- -\n+++ -\n@@ -1,1 +1,1 @@\n-0\"=J'\n+0\"EJ'\n
    - 0\"=J'$$ Q?$$ 0\"=J'$$\n => --- -\n+++ -\n@@ -1,1 +1,1 @@\n-0\"=J'$$ Q?$$ 0\"=J'$$\n+0\"EJ'$$ Q?$$ 0\"=J'$$\n
    - 2\"=J' FDab => --- -\n+++ -\n@@ -1,1 +1,1 @@\n-2\"=J' FDab\n\\ No newline at end of file\n+2\"EJ' FDab\n\\ No newline at end of file\n
    - // None at all.
    -  =>\x20
    - 0\"EJ'\n@FS/ab//\n =>\x20
    - // A text that has one, a tag and a comment stay.
    - I0\"=FDab$ !0\"=! T  !! 0\"=\n@^UA/0\"=J'/MA\n =>\x20
    - 0\"=  !! 0\"= FDab$\nJ'\n => --- -\n+++ -\n@@ -1,1 +1,1 @@\n-0\"=  !! 0\"= FDab$\n+0\"E  !! 0\"= FDab$\n
    - // An ESC that is written otherwise; one that stays is written as it was.
    - FDab^[I^[FDc\x1bI\x1b0\"=I^['\n => --- -\n+++ -\n@@ -1,1 +1,1 @@\n-FDab^[I^[FDc\x1bI\x1b0\"=I^['\n+@FS/ab//I^[@FS/c//I\x1b0\"EI^['\n
    - // The first ESC of a pair stays, and two ESC of a text are no pair. A single one at the end is none.
    - FDab$$FDc^[\n$ => --- -\n+++ -\n@@ -1,1 +1,1 @@\n-FDab$$FDc^[\n+@FS/ab//$$@FS/c//^[\n
    - FDab$\n => --- -\n+++ -\n@@ -1,1 +1,1 @@\n-FDab$\n+@FS/ab//\n
    - @FD$ab$T@FD$c$$\n => --- -\n+++ -\n@@ -1,1 +1,1 @@\n-@FD$ab$T@FD$c$$\n+@FS/ab//T@FS/c//$$\n
    - // What a delimiter is, two are: no comment, and no end of a line.
    - @FD!a !T\n => --- -\n+++ -\n@@ -1,1 +1,1 @@\n-@FD!a !T\n+@FS!a ^!!T\n
    - @FD^Aab^AT\n => --- -\n+++ -\n@@ -1,1 +1,1 @@\n-@FD^Aab^AT\n+@FS^Aab^A^AT\n
    - @FD^~ab^~@FD^$ab^$@FD^?ab^?@FD a T\n => --- -\n+++ -\n@@ -1,1 +1,1 @@\n-@FD^~ab^~@FD^$ab^$@FD^?ab^?@FD a T\n+@FS^~ab^~^~@FS^$ab^$^$@FS^?ab^?^?@FS a  T\n
    - @FD^Jab^JT\n =>\x20
    - // A string that asks an undo has no tokens.
    - 0\"=J'$$ 2{$$ 0\"=J'$$\n => --- -\n+++ -\n@@ -1,1 +1,1 @@\n-0\"=J'$$ 2{$$ 0\"=J'$$\n+0\"EJ'$$ 2{$$ 0\"EJ'$$\n";

/// Bytes, and their diff.
pub(super) const BYTES: &str = "
    - 0\"=J'FDa$^Jb\x1bT\r\n => --- -\n+++ -\n@@ -1,1 +1,1 @@\n-0\"=J'FDa$^Jb\x1bT\r\n+0\"EJ'@FS/a$^Jb//T\r\n
    - FDa\n  b\x1b\x1b@FD!a !!t!\x1b\x1b => --- -\n+++ -\n@@ -1,1 +1,1 @@\n-FDa\n+@FS/a\n@@ -2,1 +2,1 @@\n-  b\x1b\x1b@FD!a !!t!\x1b\x1b\n\\ No newline at end of file\n+  b//\x1b\x1b@FS!a !!!t!\x1b\x1b\n\\ No newline at end of file\n
    - @FD\nab\nT\n =>\x20
    - Y\x1b\x1b\n =>\x20";
