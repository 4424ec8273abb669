// Rows of formats. A record ends at its `/`. A line that begins with `#` says what the rows behind it show.

/// A format, the items of a WRITE, and its records with the name of its trap, or the end of these and how long they are.
pub const WRITTEN: &str = "
# Groups, counts, the return of control, texts, blanks and record ends.
I3,(I2) | 1 2 3 |   1 2/ 3/
I3 | 1 2 3 |   1/  2/  3/
3I2 | 1 2 3 |  1 2 3/
5I2 | 1 2 3 |  1 2 3/
999I1 | 1 2 3 4 5 6 7 | 1234567/
I1,2(I2),2HNO | 1 2 3 | 1 2 3NO/
2(I1,1H,),1H. | 1 2 3 | 1,2,./3,/
(I1),(I2),I3 | 1 2 3 | 1 2  3/
(I1),2(I2) | 1 2 3 4 5 6 7 | 1 2 3/ 4 5/ 6 7/
(I1),2(1H=),I3 | 1 2 | 1==  2/
2(I1,2(I1)/),1HX | 1 2 3 4 5 6 7 | 123/456/X/7/
(2(I1,1X),I1)/ | 1 2 3 4 5 6 7 | 1 2 3//4 5 6//7 /
I1/I1 | 1 2 | 1/2/
I1/I1 | 1 2 3 | 1/2/3//
I1,//,I1 | 1 2 | 1//2/
I1,/ | 1 2 | 1//2//
I1,1HA,I1,1HB | 1 | 1A/
() |  | /
 |  | /
4HTEXT,2X,1H. |  | TEXT  ./
I1,2X | 1 2 | 1  /2  /
A1,L2,I3,X,A1 | 72 T -5 33 | H T -5 !/
# No edit for an item, or one of the other type: the record is not completed.
 | 1 | FormatMismatch
() | 1 | FormatMismatch
1X | 1 | FormatMismatch
I1,(1HA) | 1 2 | FormatMismatch
I1/(1HA) | 1 2 | 1/FormatMismatch
L1 | 1 | FormatMismatch
I1 | T | FormatMismatch
A1 | T | FormatMismatch
I1/,L1 | 1 2 | 1/FormatMismatch
# Each edit at the limits of its width, and codes at the limits of their range.
I1 | 9 | 9/
I1 | 10 | */
I1 | -1 | */
I2 | -1 | -1/
I2 | -99 | **/
I3 | 0 |   0/
I4 | 12345 | ****/
I10 | 2147483647 | 2147483647/
I9 | 2147483647 | *********/
I11 | -2147483647 | -2147483647/
I12 | -2147483647 |  -2147483647/
I10 | -2147483647 | **********/
L1 | T | T/
L1 | F | F/
L4 | F |    F/
A1 | 32 |  /
A1 | 126 | ~/
A1 | 31 | BadCharacter
A1 | 127 | BadCharacter
A1 | -65 | BadCharacter
A1 | 321 | BadCharacter
2A1 | 72 73 | HI/
# A record of 132 characters is written, and one more is none; the last number counts all characters shown.
132X |  | / | 133
I132 | 5 | 5/ | 133
L132 | T | T/ | 133
131X,I1 | 5 | 5/ | 133
131X,A1 | 65 | A/ | 133
128X,4HLAST |  | LAST/ | 133
I132/I132 | 5 6 | 6/ | 266
133X |  | LongRecord | 10
132X,I1 | 5 | LongRecord | 10
132X,L1 | T | LongRecord | 10
132X,A1 | 65 | LongRecord | 10
132X,A1 | 31 | BadCharacter | 12
131X,I2 | 5 | LongRecord | 10
129X,4HLAST |  | LongRecord | 10
I132,X | 5 | LongRecord | 10
I132,X,L1 | 5 6 | LongRecord | 10
I132,I1 | 5 T | FormatMismatch | 14
I132/131X,A1 | 5 65 | A/ | 266
# Records of statements, and what stays of one that traps.
/// |  | ////
2(I1,2X),L1 | 1 2 T | 1  2  T/
A1,L2,I3 | 72 F -5 | H F -5/
I1/133X,I1 | 1 2 | 1/LongRecord
I1/I1/133X | 1 2 | 1/2/LongRecord
I1/L1 | 1 2 | 1/FormatMismatch
I1/(1X) | 1 2 | 1/FormatMismatch
A1 | 65 127 | A/BadCharacter
# Widths and lengths at their limits.
L3 | F |   F/
132X,I1 | 5 | LongRecord
132X,L1 | T | LongRecord
132X,A1 | 65 | LongRecord
132X,A1 | 31 | BadCharacter
";

/// A format, the types of a READ's items, the records, and the values with the name of the trap, or the code of the
/// character that a second READ takes.
pub const READ: &str = "
# Records that come in by groups, counts, record ends and the return of control.
I3 | I | 12345/678/ | 123 then 54
I3 | I I | 12345/678/ | 123 678 then EndOfInput
I3 | I I I | 12345/678/ | 123 678 EndOfInput
I1,(I2) | I I I | 12345/678/ | 1 23 67 then EndOfInput
2(I1,1X),I1 | I I I I | 12345/678/ | 1 3 5 6 then EndOfInput
I2/I2 | I I | 12345/678/ | 12 67 then EndOfInput
I2/ | I | 12345/678/ | 12 then EndOfInput
I2// | I | 12345/678/ | 12 EndOfInput
/I2 | I | 12345/678/ | 67 then EndOfInput
I2,1H- | I | 12345/ | 12 FormatMismatch
I2,I2,1H- | I | 12345/ | 12 then EndOfInput
1H-,I2 | I | 12345/ | FormatMismatch
L1 | I | 12345/ | FormatMismatch
 |  | 12345/ | then EndOfInput
I2 |  |  | EndOfInput
# Fields of each edit, with blanks, signs and what is none of them; a byte 13 is a character like others.
I3 | I | 1 2/ | 102 then EndOfInput
I3 | I | 1/ | 100 then EndOfInput
I3 | I |   7/ | 7 then EndOfInput
I3 | I |  +7/ | 7 then EndOfInput
I3 | I | -7 / | -70 then EndOfInput
I3 | I | - 7/ | -7 then EndOfInput
I3 | I | -/ | 0 then EndOfInput
I1 | I | -/ | BadField
I3 | I |   +/ | BadField
I3 | I | / | 0 then EndOfInput
I3 | I | +-1/ | BadField
I3 | I | 1-2/ | BadField
I3 | I | 1.2/ | BadField
I3 | I | 1\r\r/ | BadField
I10 | I | 2147483647/ | 2147483647 then EndOfInput
I10 | I | 2147483648/ | BadField
I11 | I | -2147483647/ | -2147483647 then EndOfInput
I11 | I | -2147483648/ | BadField
I12 | I | 000000000001/ | 1 then EndOfInput
I9 | I | 99999999999/ | 999999999 then EndOfInput
L1 | L | T/ | T then EndOfInput
L1 | L | F/ | F then EndOfInput
L5 | L |   TRU/ | T then EndOfInput
L5 | L |  FALSE/ | F then EndOfInput
L5 | L |    F/ | F then EndOfInput
L5 | L | / | BadField
L5 | L | .TRUE./ | BadField
L2 | L |   T/ | BadField
L1 | L | t/ | BadField
A1 | I | A/ | 65 then EndOfInput
A1 | I | / | 32 then EndOfInput
2A1 | I I | ~ / | 126 32 then EndOfInput
A1 | I | \r\r/ | BadCharacter
A1 | I | \x7f/ | BadCharacter
X,A1 | I | \rB/ | 66 then EndOfInput
5X,I2,L1 | I | 123/ | 0 then EndOfInput
# Records with a byte 13 before their end, which is none of theirs, and none after the end.
I3 | I | 12345/678\r/B/ | 123 then 54
I3 | I I | 12345/678\r/B/ | 123 678 then 66
I1,(I2) | I I I | 12345/678\r/B/ | 1 23 67 then 66
I2/I2 | I I | 12345/678\r/B/ | 12 67 then 66
I2/ | I | 12345/678\r/B/ | 12 then 66
/I2 | I | 12345/678\r/B/ | 67 then 66
I2// | I | 12345/678\r/B/ | 12 then EndOfInput
I2/// | I | 12345/678\r/B/ | 12 EndOfInput
 |  | 12345/678\r/B/ | then 54
L1 | I | 12345/678\r/B/ | FormatMismatch
A1 | L | 12345/678\r/B/ | FormatMismatch
I2 | I |  | EndOfInput
 |  |  | EndOfInput
I2 | I I | 7 | 70 EndOfInput
L1,X,L1 | L L | T,T/x | T T then 120
I2,A1/L1 | I I L | //C | 0 32 BadField
";

/// The same with a record of 65,535 bytes, which is blank but for its last one, a 7.
pub const LONGEST: &str = "
256(255X),254X,I1 | I | 7 then EndOfInput
256(255X),253X,I2,I1 | I I | 7 0 then EndOfInput
257(255X),I1 | I | 0 then EndOfInput
256(255X),254X,I2 | I | 70 then EndOfInput
999(255X),A1,L1 | I | 32 then EndOfInput
256(255X),122X,I132,I1 | I I | 0 7 then EndOfInput
256(255X),123X,I132,I1 | I I | 7 0 then EndOfInput
";
