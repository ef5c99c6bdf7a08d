//! Sources, and the bytes that they stand for.

/// A source and its bytes.
pub(super) const READ: &str = "
    - // A TAB, a blank and CR are a margin, and nothing at the end of a line.
    - Y<\n\tFSa$b$;>EX$$\n => Y<FSa\x1bb\x1b;>EX\x1b\x1b
    - Y<\n  FSa$b$;> \t\n\r\t EX$$ => Y<FSa\x1bb\x1b;>EX\x1b\x1b
    - Y\r\nIa$\r\nEX$$\r\n => YIa\x1bEX\x1b\x1b
    - // In a line they are bytes.
    - Ia \tb\r$ => Ia \tb\r\x1b
    - // The marks of two tags are no comment.
    - Ox$!x!!y!1=$$ => Ox\x1b!x!!y!1=\x1b\x1b
    - 1=!!2= => 1=!!2=
    - // After a blank they are, and at the beginning of a line; the blanks before it are nothing.
    - 1= \t!!one\n2=\t!!two => 1=2=
    - 1=\n!!one\n  !!two !x!\n2= => 1=2=
    - !!one\nEX => EX
    - // So is the first line of a script, and nothing else that is like it.
    - #!/usr/bin/env -S teco -f\nEX => EX
    - #a => #a
    - # => #
    - J#!b => J#!b
    - 1=\n#!b => 1=#!b
    - // A mark is itself at the end.
    - J ! => J !
    - !a! => !a!
    - // A caret and what it stands before.
    - ^$^!^~^=^?^.a => $!^^\x7fa
    - ^@^A^a^I^J^Z^z^[^\\^]^^^_ => \0\x01\x01\t\n\x1a\x1a\x1b\x1c\x1d\x1e\x1f
    - I !^!a => I !!a
    - // A single quote, also where it stands for a command.
    - ^`1\"EI^`'$^` => '1\"EI''\x1b'
    - I ^`^.\n => I '
    - // Nothing keeps blanks: at the end of a line, at the beginning of one, and at the end.
    - Ia ^.\n ^. b$ => Ia  b\x1b
    - Ia ^. => Ia\x20
    - // After a line end of the text the blanks of a line are bytes.
    - Ia^J\n  b$ => Ia\n  b\x1b
    - Ia^J  b$ => Ia\n  b\x1b
    - Ia^J !!a note\n  b$ => Ia\n  b\x1b
    - // A blank at the end is nothing.
    - EX$$ \t\r => EX\x1b\x1b";

/// A source, and the place of the first caret that can't be read.
pub(super) const UNREADABLE: &str = "
    - a\n^7 => 2
    - ^ => 0
    - ab^ => 2
    - 1=^\n2= => 2
    - ^ a^b => 0
    - ^~^~^~^# => 6
    - 1\"E^'$ => 3
    - !!^7\n ^7^8 => 6";
