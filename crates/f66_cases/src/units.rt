// Rows of units: the statements, and what the checks of a whole unit answer; in the last table also what those of one in
// parts do. A line that begins with `#` says what the rows behind it show.

/// Units and their first faults: of expressions.
pub const EXPRESSIONS: &str = "
# Sound units.
STOP | sound
STOP 17 | sound
STOP 32767 | sound
99999 STOP | sound
10 GO 10 | sound
10 SELECT K 10 10 | sound
10 SIGN K, 10 10 10 | sound
SET K, 2147483647; STOP | sound
SET LLLLLL, 1; STOP | sound
# A declaration counts for the whole unit, and FORMAT stands anywhere.
9 FORMAT 1I132; DIMENSION X 5; INTEGER X; SET 1 X@1, 2; STOP; 8 FORMAT 1I1 | sound
INTEGER M; DIMENSION M 5; SET K, 1 M@1; STOP | sound
INTEGER M 181 181, N 32767; STOP | sound
LOGICAL M 32 32 31; SET 1 K 2 K * M@3, true; STOP | sound
SET K, K neg 1 +; SET K, K neg group 2 *; SET K, K K ** group K **; STOP | sound
LOGICAL L; SET L, true true not and L or K J < group or; IF L not ? GO 10; 10 STOP | sound
SET K, K IABS@1 K 2 MOD@2 +; SET K, K 2 ISIGN@2 K 2 IDIM@2 -; STOP | sound
SET K, K 1 MAX0@2 K 1 2 MIN0@3 /; STOP | sound
# The name of an intrinsic function is a variable or an array of a unit that has no such function.
SET MOD, 1; SET K, MOD 2 *; STOP | sound
INTEGER MOD 5; SET K, 1 MOD@1; STOP | sound
WRITE 6 9 K; 9 FORMAT 1I5; STOP | sound
LOGICAL L; IF true ? WRITE 6 9 L; 9 FORMAT 1I5; STOP | sound
INTEGER M 5; WRITE 6 9 K M@1; 9 FORMAT 1I5; STOP | sound
# The seven forms of a subscript, and others.
INTEGER M 9; SET K, 2 K * 3 + M@1; STOP | sound
INTEGER M 9; SET K, 2 K * 3 - M@1; STOP | sound
INTEGER M 9; SET K, 2 K * M@1; STOP | sound
INTEGER M 9; SET K, K 3 + M@1; STOP | sound
INTEGER M 9; SET K 3 - M@1, 1; STOP | sound
INTEGER M 9; SET K M@1, 1; STOP | sound
INTEGER M 9; SET 3 M@1, 1; STOP | sound
INTEGER M 9; SET K, K 2 * M@1; STOP | TypeClash at 2
INTEGER M 9; SET K, 3 K + M@1; STOP | TypeClash at 2
INTEGER M 9; SET K, 3 2 K * + M@1; STOP | TypeClash at 2
INTEGER M 9; SET K, K J + M@1; STOP | TypeClash at 2
INTEGER M 9; SET K, K 1 + 2 + M@1; STOP | TypeClash at 2
INTEGER M 9; SET K, 2 3 * M@1; STOP | TypeClash at 2
INTEGER M 9; SET K, K 2 / M@1; STOP | TypeClash at 2
INTEGER M 9; SET K, K group M@1; STOP | TypeClash at 2
INTEGER M 9; SET K neg M@1, 1; STOP | TypeClash at 2
INTEGER M 9; SET K pos M@1, 1; STOP | TypeClash at 2
INTEGER M 9; SET 1 M@1 M@1, 1; STOP | TypeClash at 2
INTEGER M 9; SET true M@1, 1; STOP | TypeClash at 2
INTEGER M 9; LOGICAL L; WRITE 6 9 L M@1; 9 FORMAT 1I5; STOP | TypeClash at 3
# Trees that no text of the grammar has: of expressions.
SET K, -1; STOP | Syntax at 1
SET K, 2147483648; STOP | Syntax at 1
SET K, letter; STOP | Syntax at 1
SET K, k; STOP | Syntax at 1
SET K, 2K; STOP | Syntax at 1
SET K, 1 K neg *; STOP | Syntax at 1
SET K, K neg pos; STOP | Syntax at 1
SET K, K K + neg; STOP | Syntax at 1
SET K, K K * neg; STOP | sound
SET K, K K ** K **; STOP | Syntax at 1
SET K, K K K ** **; STOP | Syntax at 1
SET K, K K + 2 *; STOP | Syntax at 1
SET K, K K K * /; STOP | Syntax at 1
SET K, K K K - -; STOP | Syntax at 1
LOGICAL L; SET L, K K < K <; STOP | Syntax at 2
LOGICAL L; SET L, true true and not; STOP | Syntax at 2
LOGICAL L; SET L, true not not; STOP | Syntax at 2
LOGICAL L; SET L, true true or true and; STOP | Syntax at 2
LOGICAL L; SET L, true true true or or; STOP | Syntax at 2
LOGICAL L; SET L, true true true and and; STOP | Syntax at 2
SET K, MOD@0; STOP | Syntax at 1
INTEGER M 5; SET M@0, 1; STOP | Syntax at 2
SET 1, K; STOP | Syntax at 1
SET K group, K; STOP | Syntax at 1
# Types of expressions.
SET K, true; STOP | TypeClash at 1
LOGICAL L; SET L, 1; STOP | TypeClash at 2
LOGICAL M 5; SET 1 M@1, 1; STOP | TypeClash at 2
SET K, true group; STOP | TypeClash at 1
SET K, K true +; STOP | TypeClash at 1
SET K, true K -; STOP | TypeClash at 1
SET K, K true *; STOP | TypeClash at 1
SET K, true K /; STOP | TypeClash at 1
SET K, K true **; STOP | TypeClash at 1
LOGICAL L; SET L, K true <; STOP | TypeClash at 2
LOGICAL L; SET L, true true =; STOP | TypeClash at 2
LOGICAL L; SET L, true 1 and; STOP | TypeClash at 2
LOGICAL L; SET L, 1 true or; STOP | TypeClash at 2
LOGICAL L; SET L, 1 not; STOP | TypeClash at 2
SET K, true neg; STOP | TypeClash at 1
SET K, true pos; STOP | TypeClash at 1
SET K, K 1 <; STOP | TypeClash at 1
INTEGER M 5; SET K, M; STOP | TypeClash at 2
INTEGER M 5; SET K, M 1 +; STOP | TypeClash at 2
SET K, 7 true MOD@2; STOP | TypeClash at 1
INTEGER M 5; SET K, M IABS@1; STOP | TypeClash at 2
LOGICAL MOD; LOGICAL L; SET L, 7 2 MOD@2; STOP | TypeClash at 3
# Long names.
SET KKKKKKK, 1; STOP | NameTooLong at 1
SET K, KKKKKKK; STOP | NameTooLong at 1
SET K, 1 KKKKKKK neg group *; STOP | NameTooLong at 1
LOGICAL L; SET L, KKKKKKK 1 < not; STOP | NameTooLong at 2
SET K, 7 KKKKKKK MOD@2; STOP | NameTooLong at 1
INTEGER M 5; SET KKKKKKK M@1, 1; STOP | NameTooLong at 2
SET 1 MMMMMMM@1, 1; STOP | NameTooLong at 1
10 SELECT KKKKKKK 10 | NameTooLong at 1
10 SIGN KKKKKKK, 10 10 10 | NameTooLong at 1
IF KKKKKKK 1 < ? STOP; STOP | NameTooLong at 1
IF true ? SET KKKKKKK, 1; STOP | NameTooLong at 1
DO 10 KKKKKKK 1 9 1; 10 CONTINUE; STOP | NameTooLong at 1
DO 10 K KKKKKKK 9 1; 10 CONTINUE; STOP | NameTooLong at 1
DO 10 K 1 KKKKKKK 1; 10 CONTINUE; STOP | NameTooLong at 1
DO 10 K 1 9 KKKKKKK; 10 CONTINUE; STOP | NameTooLong at 1
WRITE 6 9 KKKKKKK; 9 FORMAT 1I5; STOP | NameTooLong at 1
INTEGER K, KKKKKKK; STOP | NameTooLong at 1
DIMENSION KKKKKKK 5; STOP | NameTooLong at 1
INTEGER M KKKKKKK; STOP | NameTooLong at 1
# Names of another type: by a declaration, or by their first letters.
REAL X; STOP | OutOfProfileType at 1
REAL K; STOP | OutOfProfileType at 1
SET H, 1; STOP | OutOfProfileType at 1
SET I, 1; SET N, 1; SET O, 1; STOP | OutOfProfileType at 3
INTEGER X; SET K, X; STOP | sound
LOGICAL X; SET X, true; STOP | sound
DIMENSION X 5; STOP | OutOfProfileType at 1
INTEGER M X; STOP | OutOfProfileType at 1
SET K, 1 X neg group *; STOP | OutOfProfileType at 1
SET K, 7 X MOD@2; STOP | OutOfProfileType at 1
INTEGER M 5; SET X M@1, 1; STOP | OutOfProfileType at 2
SET 1 X@1, 1; STOP | OutOfProfileType at 1
10 SELECT X 10 | OutOfProfileType at 1
10 SIGN X, 10 10 10 | OutOfProfileType at 1
IF X 1 < ? STOP; STOP | OutOfProfileType at 1
IF true ? SET X, 1; STOP | OutOfProfileType at 1
DO 10 X 1 9 1; 10 CONTINUE; STOP | OutOfProfileType at 1
DO 10 K 1 X 1; 10 CONTINUE; STOP | OutOfProfileType at 1
WRITE 6 9 X; 9 FORMAT 1I5; STOP | OutOfProfileType at 1
# Counts of subscripts, arguments and dimensions.
INTEGER M 5; SET K, 1 1 M@2; STOP | WrongCount at 2
INTEGER M 5; SET 1 1 M@2, 1; STOP | WrongCount at 2
INTEGER M 2 2; SET K, 1 M@1; STOP | WrongCount at 2
INTEGER M 2 2 2; SET 1 1 M@2, 1; STOP | WrongCount at 2
INTEGER M 5; WRITE 6 9 1 1 M@2; 9 FORMAT 1I5; STOP | WrongCount at 2
INTEGER M 5; IF 1 1 M@2 1 < ? STOP; STOP | WrongCount at 2
10 SIGN 7 2 IABS@2, 10 10 10 | WrongCount at 1
SET K, 7 MOD@1; STOP | WrongCount at 1
SET K, 7 2 1 MOD@3; STOP | WrongCount at 1
SET K, 7 ISIGN@1; STOP | WrongCount at 1
SET K, 7 2 1 ISIGN@3; STOP | WrongCount at 1
SET K, 7 IDIM@1; STOP | WrongCount at 1
SET K, 7 2 1 IDIM@3; STOP | WrongCount at 1
SET K, 7 MAX0@1; STOP | WrongCount at 1
SET K, 7 MIN0@1; STOP | WrongCount at 1
IF true ? SET K, 7 MAX0@1; STOP | WrongCount at 1
INTEGER M 1 1 1 1; STOP | WrongCount at 1
DIMENSION M 1 1 1 1; STOP | WrongCount at 1
DIMENSION M 5, K; STOP | WrongCount at 1
";

/// Units and their first faults: of statements, labels, ranges and names.
pub const STATEMENTS: &str = "
# Trees that no text of the grammar has: of statements.
10 SELECT k 10 | Syntax at 1
10 SIGN -1, 10 10 10 | Syntax at 1
IF true ? DO 10 K 1 9 1; 10 CONTINUE; STOP | Syntax at 1
IF true ? IF true ? GO 10; 10 STOP | Syntax at 1
IF true ? FORMAT 1I5; STOP | Syntax at 1
IF true ? INTEGER K; STOP | Syntax at 1
IF true ? DIMENSION M 5; STOP | Syntax at 1
IF true ? SET K, -1; STOP | Syntax at 1
IF K -1 < ? SET K, 1; STOP | Syntax at 1
DO 10 k 1 9 1; 10 CONTINUE; STOP | Syntax at 1
DO 10 K -1 9 1; 10 CONTINUE; STOP | Syntax at 1
DO 10 K 1 k 1; 10 CONTINUE; STOP | Syntax at 1
DO 10 K 1 9 2147483648; 10 CONTINUE; STOP | Syntax at 1
STOP 32768 | Syntax at 1
WRITE 6 9 k; 9 FORMAT 1I5; STOP | Syntax at 1
INTEGER; STOP | Syntax at 1
DIMENSION; STOP | Syntax at 1
INTEGER k; STOP | Syntax at 1
INTEGER K, M -1; STOP | Syntax at 1
DIMENSION M k; STOP | Syntax at 1
DIMENSION M 5 2147483648; STOP | Syntax at 1
# Order, and the last executable statement.
SET K, 1; INTEGER K; STOP | Syntax at 2
CONTINUE; LOGICAL L; STOP | Syntax at 2
SET K, 1; DIMENSION M 2; STOP | Syntax at 2
STOP; INTEGER K | Syntax at 2
STOP; 9 FORMAT 1I5 | sound
 | Syntax at 0
9 FORMAT 1I5 | Syntax at 0
INTEGER K; DIMENSION M 5 | Syntax at 0
SET K, 1 | Syntax at 1
STOP; CONTINUE; 9 FORMAT 1I5 | Syntax at 2
IF true ? STOP | Syntax at 1
10 IF true ? GO 10 | Syntax at 1
DO 10 K 1 9 1; 10 CONTINUE | Syntax at 2
WRITE 6 9 K; 9 FORMAT 1I5 | Syntax at 1
10 STOP; DO 10 K 1 9 1 | Syntax at 2
# Types in statements.
IF 1 ? STOP; STOP | TypeClash at 1
IF K ? STOP; STOP | TypeClash at 1
IF true ? SET K, true; STOP | TypeClash at 1
10 SIGN true, 10 10 10 | TypeClash at 1
LOGICAL L; 10 SELECT L 10 | TypeClash at 2
INTEGER M 5; 10 SELECT M 10 | TypeClash at 2
LOGICAL L; DO 10 L 1 9 1; 10 CONTINUE; STOP | TypeClash at 2
LOGICAL M 5; DO 10 M 1 9 1; 10 CONTINUE; STOP | TypeClash at 2
LOGICAL L; DO 10 K L 9 1; 10 CONTINUE; STOP | TypeClash at 2
LOGICAL L; DO 10 K 1 L 1; 10 CONTINUE; STOP | TypeClash at 2
LOGICAL L; DO 10 K 1 9 L; 10 CONTINUE; STOP | TypeClash at 2
INTEGER M 5; DO 10 K 1 M 1; 10 CONTINUE; STOP | TypeClash at 2
WRITE 6 9 7 2 MOD@2; 9 FORMAT 1I5; STOP | TypeClash at 1
IF true ? WRITE 6 9 7 2 MOD@2; 9 FORMAT 1I5; STOP | TypeClash at 1
SET K, 1; 10 CONTINUE; IF K ? GO 10; STOP | TypeClash at 3
# Names that are declared twice, or used in two classes.
INTEGER K; INTEGER K; STOP | DuplicateName at 2
INTEGER K; LOGICAL J, K; STOP | DuplicateName at 2
INTEGER K, K; STOP | DuplicateName at 1
DIMENSION M 5; DIMENSION M 5; STOP | DuplicateName at 2
DIMENSION M 5, M 6; STOP | DuplicateName at 1
INTEGER M 5; DIMENSION M 5; STOP | DuplicateName at 2
DIMENSION M 5; INTEGER M 5; STOP | DuplicateName at 2
DIMENSION M 5; INTEGER M; STOP | sound
# A name is a function's or a variable's, as the unit has it first.
SET K, 7 2 MOD@2; SET K, MOD; STOP | DuplicateName at 2
SET K, MOD; SET K, 7 2 MOD@2; STOP | DuplicateName at 2
SET K, MOD 7 2 MOD@2 +; STOP | DuplicateName at 1
SET K, 7 2 MOD@2; SET MOD, 1; STOP | DuplicateName at 2
SET K, 7 2 MOD@2; DO 10 MOD 1 9 1; 10 CONTINUE; STOP | DuplicateName at 2
SET K, 7 2 MOD@2; DO 10 K 1 MOD 1; 10 CONTINUE; STOP | DuplicateName at 2
SET K, 7 2 MOD@2; 10 SELECT MOD 10 | DuplicateName at 2
SET K, 7 2 MOD@2; WRITE 6 9 MOD; 9 FORMAT 1I5; STOP | DuplicateName at 2
SET K, 7 2 MOD@2; IF true ? SET K, MOD; STOP | DuplicateName at 2
SET MOD, 1; IF 7 2 MOD@2 1 < ? STOP; STOP | DuplicateName at 2
# Labels.
0 STOP | BadLabel at 1
100000 STOP | BadLabel at 1
10 CONTINUE; 10 STOP | BadLabel at 2
10 INTEGER K; 10 STOP | BadLabel at 2
0 INTEGER K; STOP | BadLabel at 1
STOP; 0 FORMAT 1I5 | BadLabel at 2
GO 10; 20 STOP | BadLabel at 1
GO 9; 9 FORMAT 1I5; STOP | BadLabel at 1
10 INTEGER K; GO 10 | BadLabel at 2
SELECT K 10 20; 10 STOP | BadLabel at 1
SIGN K, 20 10 10; 10 STOP | BadLabel at 1
SIGN K, 10 20 10; 10 STOP | BadLabel at 1
SIGN K, 10 10 20; 10 STOP | BadLabel at 1
IF true ? GO 20; 10 STOP | BadLabel at 1
WRITE 6 9 K; STOP | BadLabel at 1
WRITE 6 9 K; 9 STOP | BadLabel at 1
IF true ? WRITE 6 9 K; 8 FORMAT 1I5; STOP | BadLabel at 1
DO 10 K 1 9 1; STOP | BadLabel at 1
DO 9 K 1 9 1; 9 FORMAT 1I5; STOP | BadLabel at 1
10 INTEGER K; DO 10 K 1 9 1; STOP | BadLabel at 2
GO 10; 10 CONTINUE; 10 STOP | BadLabel at 3
# A declaration may have a label, and a FORMAT none.
10 INTEGER K; FORMAT 1I5; STOP | sound
# DO ranges.
10 CONTINUE; DO 10 K 1 9 1; STOP | DoNesting at 2
10 DO 10 K 1 9 1; STOP | DoNesting at 1
DO 10 K 1 9 1; 10 GO 20; 20 STOP | DoNesting at 1
DO 10 K 1 9 1; 10 SELECT K 20; 20 STOP | DoNesting at 1
DO 10 K 1 9 1; 10 SIGN K, 20 20 20; 20 STOP | DoNesting at 1
DO 10 K 1 9 1; 10 STOP | DoNesting at 1
DO 10 K 1 9 1; 10 DO 20 J 1 9 1; 20 CONTINUE; STOP | DoNesting at 1
DO 10 K 1 9 1; 10 IF true ? GO 20; 20 STOP | DoNesting at 1
DO 10 K 1 9 1; 10 IF true ? STOP; STOP | DoNesting at 1
DO 10 K 1 9 1; 10 IF true ? SET K, 1; STOP | sound
DO 10 K 1 9 1; 10 WRITE 6 9 K; 9 FORMAT 1I5; STOP | sound
DO 20 K 1 9 1; DO 10 J 1 9 1; 10 CONTINUE; 20 SET K, 1; STOP | sound
DO 10 K 1 9 1; DO 10 K 1 9 1; 10 CONTINUE; STOP | sound
DO 10 K 1 9 1; DO 20 J 1 9 1; 10 CONTINUE; 20 CONTINUE; STOP | DoNesting at 2
DO 10 K 1 9 1; IF true ? GO 20; 10 CONTINUE; 20 STOP | sound
DO 10 K 1 9 1; 20 CONTINUE; 10 CONTINUE; GO 20 | DoNesting at 4
DO 10 K 1 9 1; 20 CONTINUE; 10 CONTINUE; SELECT K 20 20 | DoNesting at 4
DO 10 K 1 9 1; 20 CONTINUE; 10 CONTINUE; 30 SIGN K, 30 20 30 | DoNesting at 4
DO 10 K 1 9 1; 20 CONTINUE; 10 CONTINUE; IF true ? GO 20; STOP | DoNesting at 4
IF true ? GO 10; DO 10 K 1 9 1; 10 CONTINUE; STOP | DoNesting at 1
# A last statement that ranges share belongs to the innermost of them.
DO 10 K 1 9 1; DO 10 J 1 9 1; IF true ? GO 10; 10 CONTINUE; STOP | sound
DO 10 K 1 9 1; IF true ? GO 10; DO 10 J 1 9 1; 10 CONTINUE; STOP | DoNesting at 2
IF true ? GO 20; 20 DO 10 K 1 9 1; 10 CONTINUE; STOP | sound
# The variable of a DO may be stored into.
DO 10 K 1 9 1; SET K, 1; 10 CONTINUE; STOP | sound
# One fault a rule.
SET I, 1; WRITE 6 9 I; 9 FORMAT 1I5; STOP | sound
INTEGER M 5; SET 1 M@1, 1; DO 10 I 1 9 1; 10 CONTINUE; STOP | sound
SET I, 1 | Syntax at 1
SET I, -1; STOP | Syntax at 1
SET IJKLMNO, 1; STOP | NameTooLong at 1
SET I, 1; SET X, 1; STOP | OutOfProfileType at 2
REAL I; STOP | OutOfProfileType at 1
INTEGER I; INTEGER I; STOP | DuplicateName at 2
GO 5; STOP | BadLabel at 1
WRITE 6 9 I; STOP | BadLabel at 1
10 CONTINUE; DO 10 I 1 9 1; STOP | DoNesting at 2
SET I, 1; 9 FORMAT 1I200; STOP | BadFormat at 2
INTEGER M 40000; STOP | Limit 7 at 1
STOP; 9 FORMAT 1000I5 | BadFormat at 2
SET I, 1; READ 5 9 I; 9 FORMAT 2I5; STOP | sound
READ 5 9 I; STOP | BadLabel at 1
SET I, -1; SET I, 1; RETURN; RETURN | Syntax at 1
SET I, true; SET IJKLMNO, 1; STOP | TypeClash at 1
SET I, 1; SET I, 1; INTEGER I; STOP | Syntax at 3
SET I, 1; 0 INTEGER I; STOP | Syntax at 2
CONTINUE; REAL I; STOP | Syntax at 2
0 SET IJKLMNO, 1; STOP | NameTooLong at 1
0 SET I, true; STOP | TypeClash at 1
0 INTEGER M 40000; STOP | BadLabel at 1
SET I, 1; 0 FORMAT 1I200; STOP | BadLabel at 2
";

/// Units and their first faults: of stores, lists and formats, and of forms that are not built.
pub const STORES: &str = "
# Constants, formats, stores and sizes.
INTEGER M 0; STOP | BadConstant at 1
DIMENSION M 0; STOP | BadConstant at 1
LOGICAL M 1 0; STOP | BadConstant at 1
INTEGER M 1 1 0; STOP | BadConstant at 1
INTEGER K, M 5, N 0; STOP | BadConstant at 1
INTEGER M J; STOP | BadConstant at 1
DIMENSION M 5 J; STOP | BadConstant at 1
9 FORMAT 1I0; STOP | BadFormat at 1
9 FORMAT 1I133; STOP | BadFormat at 1
FORMAT 1I65535; STOP | BadFormat at 1
INTEGER M 5; SET M, 1; STOP | NotAssignable at 2
INTEGER M 5; IF true ? SET M, 1; STOP | NotAssignable at 2
INTEGER M 5; DO 10 M 1 9 1; 10 CONTINUE; STOP | NotAssignable at 2
SET 1 N@1, 1; STOP | NotAssignable at 1
SET 7 2 MOD@2, 1; STOP | NotAssignable at 1
IF true ? SET 1 N@1, 1; STOP | NotAssignable at 1
INTEGER M 32768; STOP | Limit 7 at 1
DIMENSION M 32768; STOP | Limit 7 at 1
LOGICAL M 2 16384; STOP | Limit 7 at 1
INTEGER M 32 32 32; STOP | Limit 7 at 1
INTEGER M 2147483647 2147483647 2147483647; STOP | Limit 7 at 1
INTEGER K, M 5, N 32768; STOP | Limit 7 at 1
DIMENSION M 32767; STOP | sound
# Lists of READ and WRITE: items, whole arrays and implied DOs.
READ 5 9 K; 9 FORMAT 1I5; STOP | sound
READ 5 9; 9 FORMAT 1I5; STOP | sound
WRITE 6 9; 9 FORMAT 1I5; STOP | sound
WRITE 6 9 K, J; 9 FORMAT 1I5; STOP | sound
WRITE J 9 K; 9 FORMAT 1I5; STOP | sound
IF true ? READ 5 9 K; 9 FORMAT 1I5; STOP | sound
LOGICAL L; WRITE 6 9 L; 9 FORMAT 1I5; STOP | sound
INTEGER M 5; WRITE 6 9 M; 9 FORMAT 1I5; STOP | sound
INTEGER M 5; READ 5 9 K M@1, M; 9 FORMAT 1I5; STOP | sound
INTEGER M 5; WRITE 6 9 K, I M@1, J, DO 2 I 1 N 1; 9 FORMAT 1I5; STOP | sound
INTEGER M 5 5; READ 5 9 I J M@2, DO 1 I 1 5 1, DO 1 J 1 5 1; 9 FORMAT 1I5; STOP | sound
WRITE 6 9 K, DO 1 I 1 5 1, I, DO 1 K 1 5 1; 9 FORMAT 1I5; STOP | sound
# Faults of lists, and where there is no format.
WRITE 6 9 1; 9 FORMAT 1I5; STOP | Syntax at 1
WRITE 6 9 K group; 9 FORMAT 1I5; STOP | Syntax at 1
READ 5 9 N@0; 9 FORMAT 1I5; STOP | Syntax at 1
READ -1 9 K; 9 FORMAT 1I5; STOP | Syntax at 1
WRITE 6 9 DO 0 I 1 5 1; 9 FORMAT 1I5; STOP | Syntax at 1
WRITE 6 9 1, DO 1 I 1 5 1; 9 FORMAT 1I5; STOP | Syntax at 1
WRITE 6 9 K, DO 1 I 1 5 -1; 9 FORMAT 1I5; STOP | Syntax at 1
READ 5 9 KKKKKKK; 9 FORMAT 1I5; STOP | NameTooLong at 1
WRITE 6 9 K, DO 1 IIIIIII 1 5 1; 9 FORMAT 1I5; STOP | NameTooLong at 1
READ 5 9 X; 9 FORMAT 1I5; STOP | OutOfProfileType at 1
WRITE 6 9 X, DO 1 I 1 5 1; 9 FORMAT 1I5; STOP | OutOfProfileType at 1
WRITE 6 9 K, DO 1 X 1 5 1; 9 FORMAT 1I5; STOP | OutOfProfileType at 1
LOGICAL L; READ L 9 K; 9 FORMAT 1I5; STOP | TypeClash at 2
INTEGER M 5; WRITE M 9 K; 9 FORMAT 1I5; STOP | TypeClash at 2
LOGICAL L; WRITE 6 9 K, DO 1 L 1 5 1; 9 FORMAT 1I5; STOP | TypeClash at 2
LOGICAL L; READ 5 9 K, DO 1 I L 5 1; 9 FORMAT 1I5; STOP | TypeClash at 2
INTEGER M 5; WRITE 6 9 K, DO 1 I 1 M 1; 9 FORMAT 1I5; STOP | TypeClash at 2
INTEGER M 5; READ 5 9 K K + M@1; 9 FORMAT 1I5; STOP | TypeClash at 2
INTEGER M 5; WRITE 6 9 true M@1, DO 1 I 1 5 1; 9 FORMAT 1I5; STOP | TypeClash at 2
WRITE 6 9 1 N@1; 9 FORMAT 1I5; STOP | TypeClash at 1
INTEGER M 5; READ 5 9 1 1 M@2; 9 FORMAT 1I5; STOP | WrongCount at 2
SET K, 7 2 MOD@2; READ 5 9 MOD; 9 FORMAT 1I5; STOP | DuplicateName at 2
SET K, 7 2 MOD@2; WRITE 6 9 K, DO 1 MOD 1 5 1; 9 FORMAT 1I5; STOP | DuplicateName at 2
READ 5 9 1 N@1; 9 FORMAT 1I5; STOP | NotAssignable at 1
READ 5 9 7 2 MOD@2; 9 FORMAT 1I5; STOP | NotAssignable at 1
IF true ? READ 5 9 1 N@1; 9 FORMAT 1I5; STOP | NotAssignable at 1
INTEGER M 5; WRITE 6 9 K, DO 1 M 1 5 1; 9 FORMAT 1I5; STOP | NotAssignable at 2
INTEGER M 5; READ 5 9 K, DO 1 M 1 5 1, DO 1 I 1 5 1; 9 FORMAT 1I5; STOP | NotAssignable at 2
READ 5 9 K; STOP | BadLabel at 1
READ 5 9 K; 9 STOP | BadLabel at 1
IF true ? READ 5 9 K; STOP | BadLabel at 1
READ 5 9 1 N@1; STOP | BadLabel at 1
WRITE 6 9 1 N@1; STOP | TypeClash at 1
# Counts, widths and groups of formats.
FORMAT 0I5; STOP | BadFormat at 1
FORMAT 1I5; STOP | sound
FORMAT 999I5; STOP | sound
FORMAT 1000I5; STOP | BadFormat at 1
FORMAT 1I0; STOP | BadFormat at 1
FORMAT 1I1; STOP | sound
FORMAT 1I132; STOP | sound
FORMAT 1I133; STOP | BadFormat at 1
FORMAT 0L5; STOP | BadFormat at 1
FORMAT 1L5; STOP | sound
FORMAT 999L5; STOP | sound
FORMAT 1000L5; STOP | BadFormat at 1
FORMAT 1L0; STOP | BadFormat at 1
FORMAT 1L1; STOP | sound
FORMAT 1L132; STOP | sound
FORMAT 1L133; STOP | BadFormat at 1
FORMAT 0A1; STOP | BadFormat at 1
FORMAT 0(/); STOP | BadFormat at 1
FORMAT 1A1; STOP | sound
FORMAT 1(/); STOP | sound
FORMAT 999A1; STOP | sound
FORMAT 999(/); STOP | sound
FORMAT 1000A1; STOP | BadFormat at 1
FORMAT 1000(/); STOP | BadFormat at 1
FORMAT 0X; STOP | BadFormat at 1
FORMAT 0*; STOP | BadFormat at 1
FORMAT 1X; STOP | sound
FORMAT 1*; STOP | sound
FORMAT 255X; STOP | sound
FORMAT 255*; STOP | sound
FORMAT 256X; STOP | BadFormat at 1
FORMAT 256*; STOP | BadFormat at 1
FORMAT; STOP | sound
FORMAT 3I5,2L1,10A1,3X,5*,/; STOP | sound
FORMAT 3(2(3I5),4X),1(/); STOP | sound
FORMAT 2(2(2(3I5))); STOP | BadFormat at 1
FORMAT 2(1I133),5X; STOP | BadFormat at 1
FORMAT 5X,2(2(0X)); STOP | BadFormat at 1
FORMAT 1H\x07; STOP | Syntax at 1
FORMAT 2(0X,1H\x07); STOP | Syntax at 1
0 FORMAT 0X; STOP | BadLabel at 1
# COMMON, EQUIVALENCE and DATA; more of them stand in decks.
COMMON K; STOP | sound
EQUIVALENCE K, J; STOP | sound
DATA K, 1; STOP | sound
DATA K, letter; STOP | sound
COMMON K; EQUIVALENCE K, J; DATA K, 1; STOP | NotAssignable at 3
COMMON; STOP | Syntax at 1
EQUIVALENCE K; STOP | Syntax at 1
EQUIVALENCE K, 1; STOP | Syntax at 1
DATA; STOP | Syntax at 1
DATA K, J; STOP | Syntax at 1
DATA K, -1; STOP | Syntax at 1
DATA K, 1 group; STOP | Syntax at 1
DATA 1, 1; STOP | Syntax at 1
IF true ? DATA K, 1; STOP | Syntax at 1
SET K, -1; 0 SET K, true; RETURN; COMMON K | Syntax at 1
# One statement for each rule of names, and items of READ and WRITE.
SET I, J 1 +; STOP | sound
SET I, INDEXES; STOP | NameTooLong at 1
SET I, X; STOP | OutOfProfileType at 1
SET I, true; STOP | TypeClash at 1
SET I, 1 MOD@1; STOP | WrongCount at 1
INTEGER K 3; DIMENSION K 3; STOP | DuplicateName at 2
DIMENSION K 0; STOP | BadConstant at 1
DIMENSION K 3; SET K, 1; STOP | NotAssignable at 2
DIMENSION K 32768; STOP | Limit 7 at 1
DIMENSION K 32767; STOP | sound
SET I, true MOD@1; STOP | TypeClash at 1
DIMENSION K 3; SET K, true; STOP | NotAssignable at 2
DIMENSION K 3; DIMENSION K 0; STOP | DuplicateName at 2
FORMAT 2(2(3I5)); STOP | sound
FORMAT 2(0X); STOP | BadFormat at 1
FORMAT 2(/),1I133; STOP | BadFormat at 1
FORMAT 1H~; STOP | sound
FORMAT 2(1H\x7f); STOP | Syntax at 1
DIMENSION K 3; READ 5 9 K; 9 FORMAT 1I5; STOP | sound
DIMENSION K 3; READ 5 9 I K@1; 9 FORMAT 1I5; STOP | sound
LOGICAL L; READ 5 9 L; 9 FORMAT 1I5; STOP | sound
DIMENSION K 3; READ 5 9 true K@1; 9 FORMAT 1I5; STOP | TypeClash at 2
READ 5 9 1 K@1; 9 FORMAT 1I5; STOP | NotAssignable at 1
READ 5 9 1; 9 FORMAT 1I5; STOP | Syntax at 1
DIMENSION K 3; READ 5 9 I K@1, DO 1 I 1 N 1; 9 FORMAT 1I5; STOP | sound
DIMENSION K 3; READ 5 9 true K@1, DO 1 I 1 N 1; 9 FORMAT 1I5; STOP | TypeClash at 2
DIMENSION K 3; READ 5 9 I, DO 1 K 1 N 1; 9 FORMAT 1I5; STOP | NotAssignable at 2
DIMENSION K 3; READ 5 9 I, DO 1 J 1 K 1; 9 FORMAT 1I5; STOP | TypeClash at 2
LOGICAL L; READ 5 9 I, DO 1 L 1 N 1; 9 FORMAT 1I5; STOP | TypeClash at 2
READ 5 9 DO 0 I 1 N 1; 9 FORMAT 1I5; STOP | Syntax at 1
DIMENSION K 3; WRITE 6 9 K; 9 FORMAT 1I5; STOP | sound
DIMENSION K 3; WRITE 6 9 I K@1; 9 FORMAT 1I5; STOP | sound
DIMENSION K 3; WRITE 6 9 true K@1; 9 FORMAT 1I5; STOP | TypeClash at 2
WRITE 6 9 1 K@1; 9 FORMAT 1I5; STOP | TypeClash at 1
DIMENSION K 3; WRITE 6 9 I K@1, DO 1 I 1 N 1; 9 FORMAT 1I5; STOP | sound
DIMENSION K 3; WRITE 6 9 true K@1, DO 1 I 1 N 1; 9 FORMAT 1I5; STOP | TypeClash at 2
DIMENSION K 3; WRITE 6 9 I, DO 1 K 1 N 1; 9 FORMAT 1I5; STOP | NotAssignable at 2
DIMENSION K 3; WRITE 6 9 I, DO 1 J 1 K 1; 9 FORMAT 1I5; STOP | TypeClash at 2
LOGICAL L; WRITE 6 9 I, DO 1 L 1 N 1; 9 FORMAT 1I5; STOP | TypeClash at 2
WRITE 6 9 DO 0 I 1 N 1; 9 FORMAT 1I5; STOP | Syntax at 1
";

/// Units with two faults, and which of them is told.
pub const PAIRS: &str = "
# Statements that break two rules, of which that with the smaller number is told: Syntax beside each other one.
SET KKKKKKK, -1; STOP | Syntax at 1
SET X, -1; STOP | Syntax at 1
SET K, -7 MOD@1; STOP | Syntax at 1
INTEGER K; SET K, 1; INTEGER K; STOP | Syntax at 3
0 SET K, -1; STOP | Syntax at 1
SET K, 1; 0 INTEGER K; STOP | Syntax at 2
0 SET K, 1 | Syntax at 1
SET K, 1; INTEGER M 0; STOP | Syntax at 2
10 CONTINUE; DO 10 K -1 9 1; STOP | Syntax at 2
DO 10 K 1 9 1; 20 CONTINUE; 10 CONTINUE; IF true ? GO 20 | Syntax at 4
INTEGER M 5; SET M, -1; STOP | Syntax at 2
SET K, 1; INTEGER M 32768; STOP | Syntax at 2
# The same with names and types.
SET XXXXXXX, 1; STOP | NameTooLong at 1
SET KKKKKKK, true; STOP | NameTooLong at 1
SET KKKKKKK, 7 MOD@1; STOP | NameTooLong at 1
SET KKKKKKK, MOD 7 2 MOD@2 +; STOP | NameTooLong at 1
0 SET KKKKKKK, 1; STOP | NameTooLong at 1
INTEGER KKKKKKK 0; STOP | NameTooLong at 1
10 CONTINUE; DO 10 KKKKKKK 1 9 1; STOP | NameTooLong at 2
INTEGER M 5; SET M, KKKKKKK; STOP | NameTooLong at 2
INTEGER KKKKKKK 32768; STOP | NameTooLong at 1
SET X, true; STOP | OutOfProfileType at 1
SET X, 7 MOD@1; STOP | OutOfProfileType at 1
SET X, MOD 7 2 MOD@2 +; STOP | OutOfProfileType at 1
0 SET X, 1; STOP | OutOfProfileType at 1
DIMENSION X 0; STOP | OutOfProfileType at 1
10 CONTINUE; DO 10 X 1 9 1; STOP | OutOfProfileType at 2
INTEGER M 5; SET M, X; STOP | OutOfProfileType at 2
DIMENSION X 32768; STOP | OutOfProfileType at 1
SET K, true MOD@1; STOP | TypeClash at 1
SET K, 7 2 MOD@2; SET MOD, true; STOP | TypeClash at 2
0 SET K, true; STOP | TypeClash at 1
LOGICAL L; 10 CONTINUE; DO 10 L 1 9 1; STOP | TypeClash at 3
INTEGER M 5; SET M, true 1 +; STOP | TypeClash at 2
DO 10 K 1 9 1; 20 CONTINUE; 10 CONTINUE; SIGN true, 20 20 20 | TypeClash at 4
# The same with counts, classes, labels and the rest.
SET K, 7 2 MOD@2; SET MOD, 7 MOD@1; STOP | WrongCount at 2
0 SET K, 7 MOD@1; STOP | WrongCount at 1
INTEGER M 1 1 1 0; STOP | WrongCount at 1
DO 10 K 1 9 1; 20 CONTINUE; 10 CONTINUE; SIGN 7 MOD@1, 20 20 20 | WrongCount at 4
INTEGER M 5; SET M, 7 MOD@1; STOP | WrongCount at 2
INTEGER M 9 9 9 99; STOP | WrongCount at 1
INTEGER K; 0 INTEGER K; STOP | DuplicateName at 2
INTEGER M; INTEGER M 0; STOP | DuplicateName at 2
SET K, 7 2 MOD@2; 10 CONTINUE; DO 10 MOD 1 9 1; STOP | DuplicateName at 3
INTEGER M 5; SET K, 7 2 MOD@2; SET M, MOD; STOP | DuplicateName at 3
INTEGER M; INTEGER M 32768; STOP | DuplicateName at 2
0 INTEGER M 0; STOP | BadLabel at 1
DO 10 K 1 9 1; 20 CONTINUE; 10 CONTINUE; 0 GO 20 | BadLabel at 4
0 FORMAT 1I133; STOP | BadLabel at 1
INTEGER M 5; 0 SET M, 1; STOP | BadLabel at 2
0 INTEGER M 32768; STOP | BadLabel at 1
INTEGER M 0, N 32768; STOP | BadConstant at 1
INTEGER M 5; 10 CONTINUE; DO 10 M 1 9 1; STOP | DoNesting at 3
# Of two statements the earlier one is told, whatever the numbers of their faults.
INTEGER M 32768; SET K, -1; STOP | Limit 7 at 1
INTEGER M 5; SET M, 1; SET KKKKKKK, 1; STOP | NotAssignable at 2
9 FORMAT 1I133; SET X, 1; STOP | BadFormat at 1
10 CONTINUE; DO 10 K 1 9 1; SET K, true; STOP | DoNesting at 2
INTEGER M 0; SET K, 7 MOD@1; STOP | BadConstant at 1
GO 20; INTEGER K; STOP | BadLabel at 1
INTEGER K; INTEGER K; 0 STOP | DuplicateName at 2
SET K, 7 MOD@1; GO 20 | WrongCount at 1
SET K, true; SET K, 1 | TypeClash at 1
SET X, 1; SET K, -1; STOP | OutOfProfileType at 1
SET KKKKKKK, 1; SET K, -1; STOP | NameTooLong at 1
SET K, -1; SET K, true; STOP | Syntax at 1
CONTINUE; SET K, K true +; INTEGER M 0; STOP | TypeClash at 2
INTEGER M 0; 0 FORMAT 1I133 | Syntax at 0
";

/// Units whose end, DO labels and ranges are at fault, with other faults or none, and small ones.
pub const ENDS: &str = "
 | Syntax at 0
INTEGER K | Syntax at 0
SET K, 1 | Syntax at 1
DO 10 K 1 9 1; STOP | BadLabel at 1
DO 9 K 1 9 1; 9 FORMAT 1I5; STOP | BadLabel at 1
10 CONTINUE; DO 10 K 1 9 1; STOP | DoNesting at 2
DO 10 K 1 9 1; 10 STOP | DoNesting at 1
DO 10 K 1 9 1; DO 20 K 1 9 1; 10 CONTINUE; 20 STOP | DoNesting at 2
DO 10 K 1 9 1; 20 CONTINUE; 10 CONTINUE; GO 20 | DoNesting at 4
# Other faults besides.
DO 10 K 1 9 1; SET K, true; STOP | BadLabel at 1
INTEGER M 0 | Syntax at 0
0 SET K, 1 | Syntax at 1
INTEGER M 5; DO 10 M 1 9 1; STOP | BadLabel at 2
INTEGER M 5; 10 CONTINUE; DO 10 M 1 9 1; STOP | DoNesting at 3
SET MOD, 1; SET K, 7 2 MOD@2 | Syntax at 2
STOP; SET K, 7 MOD@1 | Syntax at 2
# Other faults alone.
STOP | sound
SET K, 1; INTEGER K; STOP | Syntax at 2
SET K, -1; STOP | Syntax at 1
SET KKKKKKK, 1; STOP | NameTooLong at 1
SET X, 1; STOP | OutOfProfileType at 1
100000 STOP | BadLabel at 1
10 CONTINUE; 10 STOP | BadLabel at 2
IF true ? GO 20; STOP | BadLabel at 1
WRITE 6 9 K; STOP | BadLabel at 1
9 FORMAT 1I133; STOP | BadFormat at 1
INTEGER M 32768; STOP | Limit 7 at 1
SET K, -1; COMMON K | Syntax at 1
COMMON K; COMMON K; STOP | DuplicateName at 2
# The smallest units.
SET I, 1 | Syntax at 1
DO 10 I 1 9 1 | Syntax at 1
10 CONTINUE; DO 10 I 1 9 1; STOP | DoNesting at 2
SET I, 1; INTEGER I | Syntax at 1
INTEGER I; INTEGER I | Syntax at 0
SET I, 1; 0 STOP | BadLabel at 2
GO 10; SET I, 1 | BadLabel at 1
SET I, -1; RETURN | Syntax at 1
";
