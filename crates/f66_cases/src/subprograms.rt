// Rows of units with subprograms, calls and functions: the unit, and what its checks answer.

/// Units of every kind and their first faults. The header stands on line 0.
pub const SUBPROGRAMS: &str = "
# Sound units.
SUBROUTINE S : RETURN | sound
SUBROUTINE S K J : SET K, J 1 +; RETURN | sound
SUBROUTINE S K M : INTEGER M K; SET 1 M@1, K; RETURN | sound
FUNCTION K J : SET K, J; RETURN | sound
LOGICAL FUNCTION L J : SET L, J 1 <; RETURN | sound
FUNCTION F J : INTEGER F; SET F, J; RETURN | sound
FUNCTION K J : INTEGER K; SET K, J; RETURN | sound
BLOCK : INTEGER K | sound
RETURN | sound
IF true ? RETURN; STOP | sound
CALL S; STOP | sound
CALL S K; STOP | sound
CALL S 1, letter, true, K 1 +; STOP | sound
IF true ? CALL S K; STOP | sound
INTEGER M 5; CALL S M, K; STOP | sound
INTEGER M 5; CALL S K M@1; STOP | sound
SET K, 1 N@1; STOP | sound
SET K, 1 N@1 J@1; STOP | sound
SET K, 1 N@1 2 MOD@2; STOP | sound
INTEGER M 5; SET K, M N@1; STOP | sound
LOGICAL N; LOGICAL L; SET L, 1 N@1; STOP | sound
LOGICAL L; SET K, L N@1; STOP | sound
10 SIGN 1 N@1, 10 10 10 | sound
INTEGER N; SET K, 1 N@1; STOP | sound
CALL XYZ K; STOP | sound
CALL MOD K, 2; STOP | sound
SUBROUTINE S : SET K, 1; CALL S; RETURN | sound
# The forms of headers, calls and transfers.
FUNCTION K : SET K, 1; RETURN | Syntax at 0
SUBROUTINE k : RETURN | Syntax at 0
SUBROUTINE S k : RETURN | Syntax at 0
SUBROUTINE S : INTEGER K | Syntax at 0
SUBROUTINE S X : INTEGER K | Syntax at 0
SUBROUTINE S : SET K, 1 | Syntax at 1
BLOCK : SET K, 1 | Syntax at 1
BLOCK : 9 FORMAT 1I5 | Syntax at 1
BLOCK : CALL S | Syntax at 1
CALL s; STOP | Syntax at 1
CALL S 1 K neg +; STOP | Syntax at 1
SET K, letter N@1; STOP | Syntax at 1
SET K, N@0; STOP | Syntax at 1
CALL S -1; STOP | Syntax at 1
# Long names.
SUBROUTINE KKKKKKK : RETURN | NameTooLong at 0
SUBROUTINE S KKKKKKK : RETURN | NameTooLong at 0
FUNCTION KKKKKKK J : RETURN | NameTooLong at 0
CALL KKKKKKK; STOP | NameTooLong at 1
CALL S KKKKKKK; STOP | NameTooLong at 1
CALL S KKKKKKK N@1; STOP | NameTooLong at 1
SET K, 1 KKKKKKK@1; STOP | NameTooLong at 1
# Types outside the profile.
SUBROUTINE S X : RETURN | OutOfProfileType at 0
SUBROUTINE S X : INTEGER X; RETURN | sound
SUBROUTINE S X : REAL X; RETURN | OutOfProfileType at 1
FUNCTION F K : RETURN | OutOfProfileType at 0
REAL FUNCTION K J : RETURN | OutOfProfileType at 0
INTEGER FUNCTION F J : SET F, J; RETURN | sound
CALL S X; STOP | OutOfProfileType at 1
SET K, 1 X@1; STOP | OutOfProfileType at 1
REAL X; SET K, 1 X@1; STOP | OutOfProfileType at 1
# Types of functions and arguments.
LOGICAL N; SET K, 1 N@1; STOP | TypeClash at 2
LOGICAL L; SET L, 1 N@1; STOP | TypeClash at 2
SET K, true 1 + N@1; STOP | TypeClash at 1
INTEGER M 5; SET K, M 1 + N@1; STOP | TypeClash at 2
INTEGER M 5; SET K, K K + M@1 N@1; STOP | TypeClash at 2
SET K, 1 N@1 true +; STOP | TypeClash at 1
SET K, true 1 + N@1 J@1; STOP | TypeClash at 1
LOGICAL N; SET K, 7 1 N@1 MOD@2; STOP | TypeClash at 2
CALL S true 1 +; STOP | TypeClash at 1
INTEGER M 5; CALL S M 1 +; STOP | TypeClash at 2
INTEGER M 5; CALL S K K + M@1; STOP | TypeClash at 2
IF true ? CALL S true 1 +; STOP | TypeClash at 1
LOGICAL MOD; CALL S 7 2 MOD@2; STOP | TypeClash at 2
# Counts.
INTEGER M 5; CALL S 1 1 M@2; STOP | WrongCount at 2
CALL S 7 MOD@1; STOP | WrongCount at 1
SET K, 7 MOD@1 N@1; STOP | WrongCount at 1
# Classes of names.
CALL N; SET N, 1; STOP | DuplicateName at 2
SET N, 1; CALL N; STOP | DuplicateName at 2
CALL N; SET K, 1 N@1; STOP | DuplicateName at 2
SET K, 1 N@1; CALL N; STOP | DuplicateName at 2
SET K, 1 N@1; SET N, 1; STOP | DuplicateName at 2
SET N, 1; SET K, 1 N@1; STOP | DuplicateName at 2
SET N, 1 N@1; STOP | DuplicateName at 1
CALL N N; STOP | DuplicateName at 1
CALL N 1 N@1; STOP | DuplicateName at 1
IF true ? CALL N; SET N, 1; STOP | DuplicateName at 2
INTEGER N; CALL N; STOP | DuplicateName at 2
LOGICAL N; IF true ? CALL N; STOP | DuplicateName at 2
DIMENSION N 5; CALL N; STOP | DuplicateName at 2
CALL MOD; SET K, 7 2 MOD@2; STOP | DuplicateName at 2
SUBROUTINE K : SET K, 1; RETURN | DuplicateName at 1
SUBROUTINE K : SET J, 1 K@1; RETURN | DuplicateName at 1
SUBROUTINE K : INTEGER K; RETURN | DuplicateName at 1
SUBROUTINE K : INTEGER K 5; RETURN | DuplicateName at 1
SUBROUTINE K : DIMENSION K 5; RETURN | DuplicateName at 1
FUNCTION K J : SET K, J K@1; RETURN | DuplicateName at 1
FUNCTION K J : CALL K; RETURN | DuplicateName at 1
FUNCTION K J : INTEGER K 5; RETURN | DuplicateName at 1
INTEGER FUNCTION K J : INTEGER K; RETURN | DuplicateName at 1
SUBROUTINE S K : SET J, 1 K@1; RETURN | DuplicateName at 1
SUBROUTINE S K : CALL K; RETURN | DuplicateName at 1
SUBROUTINE S MOD : SET K, 7 2 MOD@2; RETURN | DuplicateName at 1
SUBROUTINE S K K : RETURN | DuplicateName at 0
SUBROUTINE K J K : RETURN | DuplicateName at 0
FUNCTION K K : RETURN | DuplicateName at 0
# Adjustable dimensions.
SUBROUTINE S M K : LOGICAL K; INTEGER M K; RETURN | BadConstant at 2
SUBROUTINE S M K : INTEGER K 3; INTEGER M K; RETURN | BadConstant at 2
SUBROUTINE S M : INTEGER M K; RETURN | BadConstant at 1
SUBROUTINE S K : INTEGER M K; RETURN | BadConstant at 1
# Stores, and labels.
SUBROUTINE S M : INTEGER M 5; SET M, 1; RETURN | NotAssignable at 2
SUBROUTINE S : 10 RETURN; 10 RETURN | BadLabel at 2
SUBROUTINE S : DO 10 I 1 9 1; 10 RETURN | DoNesting at 1
# Two rules of one statement: the smaller number.
CALL KKKKKKK X; STOP | NameTooLong at 1
CALL S X, true 1 +; STOP | OutOfProfileType at 1
CALL N N, true 1 +; STOP | TypeClash at 1
CALL N N, 7 MOD@1; STOP | WrongCount at 1
CALL S 7 true MOD@2, 7 MOD@1; STOP | TypeClash at 1
SUBROUTINE KKKKKKK X : RETURN | NameTooLong at 0
SUBROUTINE K X X : RETURN | OutOfProfileType at 0
";
