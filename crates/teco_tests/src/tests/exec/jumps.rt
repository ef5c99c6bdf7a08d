//! Jumps to tags, and macros.

pub(super) const ROWS: &str = "
    // Jumps end as they mean.
    Ox\x1b?!x!\x1b => => TAG => 1
    Ox\x1b0<!x!>\x1b => => TAG => 1
    Ox\x1b1!x!2=!x!3= => 2\r\n3\r\n => => 5
    Ox\x1bI!x!\x1b1=!x!2= => 2\r\n => => 3
    Ox\x1b1\"E2'<J>1\"E|1\"E|''!x!4= => 4\r\n => => 3
    Ox\x1b1\"E2|3|4'!x! => => TAG => 1
    Ox\x1b!xx!!!!X! => => TAG => 1
    O\x1b!x!!!2= => 2\r\n => => 3
    Ox\x1b0<!x!1=>!x!2= => 2\r\n => => 3
    Ox\x1b?!x!1= => => TAG => 1
    // More are made in a loop than are remembered, each eight bytes after the one before it.
    2<Oa\x1b!a!1=Ob\x1b!b!2=Oc\x1b!c!3=Od\x1b!d!4=Oe\x1b!e!5=> => 1\r\n2\r\n3\r\n4\r\n5\r\n1\r\n2\r\n3\r\n4\r\n5\r\n => => 34
    // So many that the tags of the text are gathered on the way.
    120<Oa\x1b!a!Ob\x1b!b!Oc\x1b!c!Od\x1b!d!Oe\x1b!e!Of\x1b!f!%A>QA=\x1b => 120\r\n => => 964
    120<Oa\x1b!a!Ob\x1b!b!Oc\x1b!c!Od\x1b!d!Oe\x1b!e!Of\x1b!f!%A>Oz\x1b => => TAG => 963
    @^UA/Ox\x1b/MA!x!1=\x1b => => TAG => 3
    // Macros end as they mean.
    @^UA/;/<MA>\x1b => => SNI => 4
    @^UA/+1/2MA=\x1b => 3\r\n => => 6
    @^UA/(1+/MA2)=\x1b => 3\r\n
    @^UA/+4)*3/2*(1MA=\x1b => 30\r\n
    @^UA/MA/MA\x1b => => PDO => 34
    ";
