//! What is done with files, a line each, and what is seen then.

pub(super) const LINES: &str = "
    unmake teco_test if there
    new teco_test
    // A call that fails, and the kind of its error, which stays until the next.
    make teco_test/out a
    error nothing
    not open teco_test/none
    error NotFound
    not open teco_test
    error IsADirectory
    target teco_test/out
    error IsADirectory
    not target teco_test/out/file
    error NotADirectory
    not target teco_test
    error IsADirectory
    unmake teco_test
    new teco_test
    // How an output is written.
    // A file that is new, and one with permissions of its own.
    write teco_test/file new
    has teco_test/file new
    chmod teco_test/file 640
    write teco_test/file again
    has teco_test/file again
    is teco_test/file 640
    // A file behind a link.
    link teco_test/link file
    write teco_test/link behind
    has teco_test/file behind
    is teco_test/link link
    // A file that the link leads to and that is not there.
    remove teco_test/file
    write teco_test/link led to
    has teco_test/file led to
    // No folder, a folder, and a name that no file can take.
    not write teco_test/no/file a
    not write teco_test a
    not write teco_test/none/ a
    is teco_test/.teco-7 gone
    // A draft of someone else's stays as it is, and another name is taken.
    make teco_test/.teco-7 theirs
    write teco_test/file ours
    has teco_test/.teco-7 theirs
    has teco_test/file ours
    // A device is given the output, and stays one.
    write /dev/null a
    is /dev/null device
    unmake teco_test
    new teco_test
    // Whose it is.
    // A new file has the permissions of the file that was opened last, but for those that the process gives to no new file.
    make teco_test/in private
    chmod teco_test/in 600
    open teco_test/in
    write teco_test/out too
    has teco_test/out too
    is teco_test/out 600
    remove teco_test/out
    make teco_test/in private
    chmod teco_test/in 666
    open teco_test/in
    write teco_test/out too
    has teco_test/out too
    is teco_test/out 644
    // A file that is replaced keeps its own permissions, whatever those of the input are.
    make teco_test/in public
    chmod teco_test/in 644
    chmod teco_test/out 600
    open teco_test/in
    write teco_test/out again
    has teco_test/out again
    is teco_test/out 600
    give teco_test/out if root
    other write teco_test/out theirs
    has teco_test/out theirs
    is teco_test/out kept
    // Where the draft would be, a link is put beforehand: it isn't followed.
    make teco_test/in victim
    link teco_test/.teco-7 in
    other write teco_test/out ours
    has teco_test/out ours
    has teco_test/in victim
    remove teco_test/.teco-7
    unmake teco_test
    new teco_test
    // Where it goes.
    make teco_test/out old
    other pipe teco_test/link
    remove teco_test/link
    other descriptor teco_test/out
    has teco_test/out old
    // A link to a link to nothing makes the file at their end; a link to itself is an error.
    remove teco_test/out
    link teco_test/end out
    link teco_test/link end
    other write teco_test/link at the end
    has teco_test/out at the end
    is teco_test/link link
    link teco_test/self self
    other not write teco_test/self nowhere
    remove teco_test/link
    link teco_test/link /proc/self/fd/1
    other busy teco_test/link
    unmake teco_test
    new teco_test
    // What is told of a file that was opened: whether it is as it was read. The second change is another file with the same bytes.
    make teco_test/in as read
    open teco_test/in
    same teco_test/in
    make teco_test/in not as read
    same teco_test/in no
    open teco_test/in
    same teco_test/in
    other write teco_test/in not as read
    same teco_test/in no
    // A change that keeps the size is one.
    make teco_test/in as read
    age teco_test/in
    open teco_test/in
    same teco_test/in
    make teco_test/in AS READ
    same teco_test/in no
    open teco_test/in
    remove teco_test/in
    same teco_test/in no
    // Whether it has an output's bytes already: not with another size than it had when it was opened, whatever it has now.
    make teco_test/in as read
    open teco_test/in
    yields teco_test/in as read
    not yields teco_test/in AS READ
    not yields teco_test/in as rea
    make teco_test/in as
    not yields teco_test/in as
    unmake teco_test
    new teco_test
    // What is edited in place: a regular file, also behind a link. Nothing else is opened, so that a pipe doesn't wait for its writer.
    make teco_test/in as read
    link teco_test/link in
    vet teco_test/in
    vet teco_test/link
    not vet teco_test
    not vet teco_test/none
    not vet /dev/null
    // The file is what it was when the draft takes its name; then it isn't. No draft is left.
    vet teco_test/in
    finish teco_test/in first
    has teco_test/in first
    not finish teco_test/in second
    has teco_test/in first
    is teco_test/.teco-7 gone
    // A change of what is known of the file shows too, as one of the permissions, or of the text with its time put back.
    vet teco_test/in
    chmod teco_test/in 600
    not finish teco_test/in second
    has teco_test/in first
    // An output under another name of the file that was read.
    vet teco_test/in
    make teco_test/in theirs
    not write teco_test/link ours
    has teco_test/in theirs
    is teco_test/.teco-7 gone
    unmake teco_test
    new teco_test
    // An old file is kept by a link, so it stays what it is, and the file is told to be as it was read all the same.
    make teco_test/in old
    chmod teco_test/in 640
    vet teco_test/in
    keep teco_test/in .bak
    joins teco_test/in teco_test/in.bak
    same teco_test/in
    keep teco_test/in .bak
    is teco_test/.teco-7 gone
    finish teco_test/in new
    has teco_test/in new
    has teco_test/in.bak old
    is teco_test/in.bak 640
    // What had the name is replaced, also a link that leads to the file, and that of another run is not taken for the time.
    make teco_test/.teco-7 theirs
    vet teco_test/in
    keep teco_test/in .bak
    finish teco_test/in newer
    has teco_test/in.bak new
    has teco_test/.teco-7 theirs
    remove teco_test/.teco-7
    remove teco_test/in.bak
    link teco_test/in.bak in
    vet teco_test/in
    keep teco_test/in .bak
    finish teco_test/in last
    has teco_test/in.bak newer
    // A file behind a link is kept beside the link.
    link teco_test/link in
    vet teco_test/link
    keep teco_test/link .bak
    finish teco_test/link behind
    is teco_test/link link
    has teco_test/in behind
    has teco_test/link.bak last
    // A folder has the name, or the file has changed.
    new teco_test/in.dir
    vet teco_test/in
    not keep teco_test/in .dir
    error IsADirectory
    is teco_test/.teco-7 gone
    vet teco_test/in
    make teco_test/in theirs
    not keep teco_test/in .bak
    error ResourceBusy
    has teco_test/in.bak newer
    unmake teco_test
    ";
