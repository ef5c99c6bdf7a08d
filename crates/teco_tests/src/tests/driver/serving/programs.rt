//! The programs of the folder examples: `$` is ESC, and a backquote the byte 5.

pub(super) const SORT: &str =
    r#"!sort.tec: sorts the lines of a file, by their bytes; lines that are alike keep their order.
  teco FILE --output OUT < examples/sort.tec
Form feeds between pages go. A thousand lines take some 120000 steps, and more where they begin alike.
The lines go into heaps by their first byte, and the lines of a heap into heaps by their next one. A heap is at
the end of the text: from N to U is what its lines begin with, and then comes, line by line, what they go on with.
T calls H for each byte I with which lines go on, in order. H is L at first, which makes a heap of these lines and
calls T for it, and then G. G writes a line that is alone, and lets R put more of them in order.
R puts them from V on, each from B before the first whose byte D isn't below its own, which is X; where it is the
same, D compares the bytes that follow. Many lines that are the same there make a heap of their own, up to the
eighth byte. M merges what is left from V on, or all: each W lines are in order there, and of two
such parts one is from P to M, the next from M to E. F tells whether there were two, and O is how far apart two
lines are that are compared. The end of a line comes before any byte.!
@^UM#1UW <QVJ 0UF
  <.-Z; .UP QWL .UM QM-Z; QWL .UE 1UF QPJ
    <QM-QPUO QDC <QOAUY QY-12"L QY/2-5"E -1UY 0;'' 0A-QY"N 0;' C>
      0AUX QX/2-5"E -1UX'
      QY-QX"L QMJ XAK QPJ GA .UP QM+:QAUM QM-QE; | QPJ L .UP QP-QM;'>
    QEJ>
  -QF; 2*QWUW>#
@^UL#UI QI-10"E <.-1,.PW R S$;> |
  .UB QN,QUXA [N[U ZUN ZJ GA QII$ .UU 10I$ QBJ <XA.UBZJGAQBJS$;.-QN;>
  [H[G]H MT ]H QN,ZK ]U]N'#
@^UG#UI QI-10"E <QN,QUPW .-1,.PW R S$;> |
  .UC R.UB :S$"U QN,QUPW QBJ L QB,.PW | MR''#
@^UR#ZUV QVUW QU-QN+1UD QN,QUXC 0UK QCJ
  <0AUX R.UBXA QX-10"E0UV' QWJ QK<QDA-QX"LL|0;'> QDA-QX"EMD' GCGA%K$ QBJS$;.-QV;>
  QV"N QV,ZPW QW,ZK | QW,ZK QCJ QD-8&(Z-8000000)"L QIML |
    ZUV <R.UBXAZJGCGAQBJS$;.-QV;> MM QV,ZPW QV,ZK''#
@^UD#QK-8"G 0UV | <.UP QB-QD-QP+1UO QDC <CQOAUY0A-QY"N0;'>
  QY-10"E-1UY' 0AUE QE-10"E-1UE' QPJ QE-QY"G0;' L QDA-QX"N0;'>'#
@^UA#@I/QUJ:@S/ 12I$ 10I$ 17I$ QCI$ 12I$ @I/"S^^/ QCI$ @I/MH'/#
<A ZJ Z"N -A/2-5"N 10I$ ' ' -1-^N;>         !all pages, each with a line end, LF or VT!
J 64L .-Z&(Z-5000000)"L | MM EX '           !few lines, or too much text for heaps beside it!
J 10I$ ZUN QN+256UE ZJ 256<10I$>            !the table from N to E will have each byte of the text at its number!
@I/:@S/ 12I$ 14I$ 5I$ I[$ 17I$ 10I$ I]$ 12I$ QE,ZX2 QE,ZK            !2 looks for a byte that it doesn't list yet!
J <M2; -AUC .UB QN+QCJ D QCI$ ZJ G2 -2D I,$ 17I$ QCI$ I]$ 12I$ QE,ZX2 QE,ZK QBJ>
QNJ 11A-10"N QN,ZK JD MM EX '               !with a VT, which ends a line too, M sorts all!
ZJ 10UC MA 0UC QNJ 256<QCA-10"N ZJ MA QNJ ' %C$> QE,ZXT QN,ZK        !A writes T, where FF ends each text!
0UN 0UU [L]H MT
HK EX$$
"#;

pub(super) const REVERSE: &str =
    r#"!reverse.tec: writes the lines of a file from the last to the first.
  teco FILE --output OUT < examples/reverse.tec
Form feeds between pages go.!
<A ZJ Z"N -A-10"N 10I$ ' ' -1-^N;>          !all pages, each with a line end!
ZJ <-.; -L .UB L QB,.PW QBJ>                !the line before the pointer goes to the output!
HK Y EX$$
"#;

pub(super) const NUMBER: &str =
    r#"!number.tec: puts its number before each line, to the right in six columns and with a tab after it,
and types how many lines there are.
  teco FILE --output OUT < examples/number.tec
The pages are kept, and their lines are counted through.!
0UN 9UT 5<32I$> 9I$ HXS HK                          !S goes before each line, and each number up to T before its tab!
Y <J
  <.-Z; QT-QN"E QT*10+9UT :QS-1"N .UB GS QB+1,.XS QB,.K' '
    QT-QN<.-Z; GS R %N\ L>>
-1-^N; P>
QN= EX$$
"#;

pub(super) const STRIP: &str =
    r#"!strip.tec: takes the spaces and tabs off the ends of lines, and keeps the pages.
  teco FILE --output OUT < examples/strip.tec!
Y <
  J <FS`S
$
$;>                                         !blanks before a line end!
  ZJ <-A-32"N -A-9"N 0;' ' -D>              !blanks before the end of the page!
-1-^N; P>
EX$$
"#;

pub(super) const WRAP: &str =
    r#"!wrap.tec: breaks lines that are longer than W at a space, and a word that is longer anywhere.
  teco FILE --output OUT < examples/wrap.tec
W is 72 below. A byte is a column.!
72UW
Y <J
  <.-Z; .UB L -A-10"E R'                    !to the end of the line, which begins at B!
    .-QB-QW"G
      QB+QWJ -:S $"E QBJ'                   !the last space that is not past W!
      .-QB-2"L QB+QWJ | -D ' 10I$
    | L ' >
-1-^N; P>
EX$$
"#;

pub(super) const SWAP: &str =
    r#"!swap.tec: swaps the first two columns of a comma-separated file; a line without a comma stays.
  teco FILE --output OUT < examples/swap.tec
The next K lines, from B to E, are swapped as if each had two commas: the first column with its comma is taken
out and put in after the next comma. Each turn passes one line then, so the last one ends at E. Where it doesn't, or
the first line, up to D, has no two commas, the lines are put back from T and swapped one by one, with a look
for the end of each. S is K lines of two commas, which no swap changes: it comes after the last line of the
page, at Z, so that a search finds one, and after E, so that a wrong turn stays in it.!
64UK QK<I,,
$> HXS HK
Y <
  ZJ .UZ Z"N -A-10"N 10I$ ' ' GS J                                   !the last line gets an end!
  <.-QZ;
    .UB L .UD QBJ QKL .UE QB,.XT GS QBJ
    2S,$ QD-."G QBJ QK<S,$0XA0KS,$GAL>'
    .-QE"E :QSD |
      QB,QE+:QSK GT QBJ
      <S,$.-QE; 0XA 0K .UB L .UD QBJ S,$ QD-."L QDJ R I,$ GA -D | GA ' L>
      QEJ'>
  QZ,ZK
-1-^N; P>
EX$$
"#;

pub(super) const COLUMNS: &str =
    r#"!columns.tec: writes the columns of a comma-separated file from the last to the first.
  teco FILE --output OUT < examples/columns.tec
The columns of a line wait on the push-down list, so there are at most 64.!
@^UF/<.-Z; 0A-44"E 0;' 0A-10"E 0;' C>/      !F goes to the next comma or the end of the line!
Y <J
  <.-Z; 0UN
    <.UB MF QB,.XA [A %N$ QB,.K             !a column!
      0A-44"N 0;' D>                       !and the comma after it, while there is one!
    QN-1<]A GA I,$> ]A GA L>
-1-^N; P>
EX$$
"#;

pub(super) const JOIN: &str =
    r#"!join.tec: makes one page of all. A page before the last that does not end with a line end gets one.
  teco FILE --output OUT < examples/join.tec!
<A -1-^N; ZJ Z"N -A-10"N 10I$ ' ' >
HPW HK Y EX$$
"#;

pub(super) const SPLIT: &str =
    r#"!split.tec: makes pages of L lines, where the file had its pages or none.
  teco FILE --output OUT < examples/split.tec
L is 60 below.!
60UL
<A -1-^N; ZJ Z"N -A-10"N 10I$ ' ' >         !one page of all!
J <QLL .-Z; 12I$>                           !a form feed after each L lines!
HPW HK Y EX$$
"#;

pub(super) const REPLACE: &str =
    r#"!replace.tec: replaces one text by another on all pages, and types how often it did.
  teco FILE --output OUT < examples/replace.tec
The two texts are in the next line.!
@^UR|:@FS/colour/color/|
0UC
Y <J <MR; %C> -1-^N; P>
QC:= @^A/ replaced
/ EX$$
"#;

pub(super) const PRIMES: &str =
    r#"!primes.tec: writes the primes up to N, a line each, and types how many there are.
  teco /dev/null --output OUT < examples/primes.tec
N is 100 below. The byte at place I tells whether I is crossed out.!
100UN
QN+1<^^.I$>
2UI <QI*QI-QN-1;                            !as long as the square of I is at most N!
  QIJ 0A-^^."E
    QI*QIUJ <QJ-QN-1; QJJ D^^xI$ QJ+QIUJ> ' !its multiples are crossed out!
  %I>
0UC 2UI <QI-QN-1; QIJ 0A-^^."E ZJ QI\ 10I$ %C' %I>
0,QN+1K QC= EX$$
"#;

pub(super) const E: &str = r#"!e.tec: types the number e to N decimals.
  teco /dev/null --output OUT < examples/e.tec
N is 50 below, and at most 240; 100 decimals take 400000 steps. The buffer is a long fraction: the
byte at place I says how often one over the factorial of I+2 is in it. All of it times ten gives the next
digit, and what is left is the next fraction.!
50UN
QN+10UM QM<1I$>
@^A/2./
QN<0UC QMUI
  <-%IJ 0A*10+QCUX QX/(QI+2)UC DQX-(QC*(QI+2))I$ -QI;>
  QC:=>
@^A/
/ HK EX$$
"#;
