// Decks of cards and what their reading gives, worked out by hand from the rules of cards, statements and units.

use crate::checks::fault_shown;
use deck_reader::read_deck;
use ground::Refusal;
use std::alloc::Global;
use std::process::Abort;
use std::test::Fail;

/// A deck, each card with a semicolon behind it, and how many units it has, or its fault and the number of its card.
const DECKS: &str = "
      STOP;      END; | 1 units
C A REMARK;      K = 1;     1    + 2;      STOP;      END; | 1 units
      DO10I=13;      STOP;      END; | OutOfProfileType at 1
      DO10I=1,3;   10 CONTINUE;      STOP;      END; | 1 units
      CALL S(3);      STOP;      END;      SUBROUTINE S(K);      RETURN;      END; | 2 units
      WRITE(6,9);    9 FORMAT(11H A B C D E );      STOP;      END; | 1 units
 | BadCard at 1
      STOP; | BadCard at 2
      STOP;      END;      K = 1; | BadCard at 4
      K = = 1;      STOP;      END; | Syntax at 1
      STOP;   10 END; | BadCard at 3
      STOP;   10 END;      END; | Syntax at 2
   10 SUBROUTINE S;      RETURN;      END; | Syntax at 1
      SUBROUTINE LONGNAME;      RETURN;      END; | NameTooLong at 1
      K = LONGNAME;      STOP;      END; | NameTooLong at 1
      K = 9999999999;      STOP;      END; | NumberTooLarge at 1
      GO TO 7;      END; | BadLabel at 1
      GO TO 7;      END;      K = = 1;      STOP;      END; | Syntax at 3
      STOP;      END;      SUBROUTINE S;      GO TO 7;      END; | BadLabel at 4
      STOP;      END;      SUBROUTINE S(K,K);      RETURN;      END; | DuplicateName at 3
";

/// The same of COMMON, EQUIVALENCE and DATA: sound units, and each fault.
const STORAGE: &str = "
      COMMON K,M(3);      STOP;      END; | 1 units
      COMMON /X/ K,L(2)/Y/ M//N;      STOP;      END; | 1 units
      COMMON /K/ K;      STOP;      END; | 1 units
      COMMON X;      INTEGER X;      STOP;      END; | 1 units
      INTEGER K(3);      COMMON K;      STOP;      END; | 1 units
      COMMON K,/X/ J;      STOP;      END; | Syntax at 1
      STOP;      COMMON K;      END; | Syntax at 2
      COMMON /LONGNAME/ K;      STOP;      END; | NameTooLong at 1
      COMMON LONGNAME;      STOP;      END; | NameTooLong at 1
      COMMON X;      STOP;      END; | OutOfProfileType at 1
      COMMON K(1,1,1,1);      STOP;      END; | WrongCount at 1
      COMMON K;      COMMON /X/ K;      STOP;      END; | DuplicateName at 2
      COMMON K,J,K;      STOP;      END; | DuplicateName at 1
      COMMON /X/ K/Y/ J,K;      STOP;      END; | DuplicateName at 1
      INTEGER K(3);      COMMON K(3);      STOP;      END; | DuplicateName at 2
      COMMON K(3);      DIMENSION K(3);      STOP;      END; | DuplicateName at 2
      COMMON N;      K = N(1);      STOP;      END; | DuplicateName at 2
      SUBROUTINE S(K);      COMMON K;      RETURN;      END; | DuplicateName at 2
      SUBROUTINE K;      COMMON K;      RETURN;      END; | DuplicateName at 2
      FUNCTION K(J);      COMMON K;      K = J;      RETURN;      END; | DuplicateName at 2
      COMMON K(0);      STOP;      END; | BadConstant at 1
      COMMON K(N);      STOP;      END; | BadConstant at 1
      COMMON K(32767),J(181,181);      STOP;      END; | 1 units
      COMMON K(32768);      STOP;      END; | Limit 7 at 1
      INTEGER M(3);      EQUIVALENCE (K,M(2)),(M(3),J,N);      STOP;      END; | 1 units
      INTEGER M(3,3);      EQUIVALENCE (K,M(9)),(J,M(2,2));      STOP;      END; | 1 units
      INTEGER M(3);      EQUIVALENCE (K,M(0)),(J,M(4)),(N,M);      STOP;      END; | 1 units
      LOGICAL L;      EQUIVALENCE (K,L);      STOP;      END; | 1 units
      EQUIVALENCE (K);      STOP;      END; | Syntax at 1
      EQUIVALENCE (K,LONGNAME);      STOP;      END; | NameTooLong at 1
      EQUIVALENCE (K,X);      STOP;      END; | OutOfProfileType at 1
      EQUIVALENCE (K,M(X));      STOP;      END; | OutOfProfileType at 1
      EQUIVALENCE (K,M(1));      STOP;      END; | TypeClash at 1
      INTEGER M(3);      EQUIVALENCE (K,M(-1));      STOP;      END; | TypeClash at 2
      INTEGER M(3,3,3);      EQUIVALENCE (K,M(1,2));      STOP;      END; | WrongCount at 2
      EQUIVALENCE (N,J);      K = N(1);      STOP;      END; | DuplicateName at 2
      SUBROUTINE S(K);      EQUIVALENCE (K,J);      RETURN;      END; | DuplicateName at 2
      SUBROUTINE S(M);      INTEGER M(3);      EQUIVALENCE (M(1),J);      RETURN;      END; | DuplicateName at 3
      FUNCTION K(J);      EQUIVALENCE (N,K);      K = J;      RETURN;      END; | DuplicateName at 2
      INTEGER M(3);      EQUIVALENCE (K,M(J));      STOP;      END; | BadConstant at 2
      LOGICAL L;      INTEGER M(3);      DATA K,M(2),L/1,-2,.TRUE./,J,N/2*+7/,I/1HA/;      STOP;      END; | 1 units
      K = 1;      DATA J/2/;      STOP;      END; | 1 units
      BLOCK DATA;      COMMON /X/ K;      DATA K/1/;      END; | 1 units
      INTEGER M(3,3);      DATA M(3,1),M(1,3)/2*0/;      STOP;      END; | 1 units
      DATA K/J/;      STOP;      END; | Syntax at 1
      DATA LONGNAME/1/;      STOP;      END; | NameTooLong at 1
      DATA X/1/;      STOP;      END; | OutOfProfileType at 1
      INTEGER M(9);      DATA M(J*2)/1/;      STOP;      END; | TypeClash at 2
      INTEGER M(9);      DATA M(-1)/1/;      STOP;      END; | TypeClash at 2
      DATA K,J/1/;      STOP;      END; | WrongCount at 1
      DATA K/2*1/;      STOP;      END; | WrongCount at 1
      INTEGER M(3,3);      DATA M(1)/1/;      STOP;      END; | WrongCount at 2
      DATA N/1/;      K = N(1);      STOP;      END; | DuplicateName at 2
      DATA K/.TRUE./;      STOP;      END; | BadConstant at 1
      LOGICAL L;      DATA L/1/;      STOP;      END; | BadConstant at 2
      LOGICAL L;      DATA L/1HA/;      STOP;      END; | BadConstant at 2
      LOGICAL L;      DATA K,J,L/2*1,.TRUE./;      STOP;      END; | 1 units
      LOGICAL L;      DATA K,L,J/2*1,1/;      STOP;      END; | BadConstant at 2
      DATA K/0*1,1/;      STOP;      END; | BadConstant at 1
      INTEGER M(3);      DATA M/1/;      STOP;      END; | NotAssignable at 2
      DATA K(1)/1/;      STOP;      END; | NotAssignable at 1
      DATA K(MOD(1))/.TRUE./;      STOP;      END; | NotAssignable at 1
      INTEGER M(3);      DATA M(4)/1/;      STOP;      END; | NotAssignable at 2
      INTEGER M(3);      DATA M(0)/1/;      STOP;      END; | NotAssignable at 2
      INTEGER M(3);      DATA M(J)/1/;      STOP;      END; | NotAssignable at 2
      SUBROUTINE S(K);      DATA K/1/;      RETURN;      END; | NotAssignable at 2
      FUNCTION K(J);      DATA K/1/;      K = J;      RETURN;      END; | NotAssignable at 2
      COMMON /X/ K;      DATA K/1/;      STOP;      END; | NotAssignable at 2
      BLOCK DATA;      COMMON K;      DATA K/1/;      END; | NotAssignable at 3
";

/// What reading a deck gives.
fn outcome(alloc: Global, deck: &str) -> Result<String, Fail> {
    match read_deck(alloc, deck.as_bytes()) {
        Ok(units) => {
            let number = units.len();
            Ok(format!(in alloc; "{number} units")?)
        }
        Err(Refusal::Fault(fault)) => Ok(fault_shown(alloc, fault)?),
        Err(Refusal::Memory) => Err("memory")?,
    }
}

fn expect(rt: &impl Abort, alloc: Global, row: &str) -> Result<(), Fail> {
    let (cards, wanted) = row.split_once(" | ").ok_or("no bar")?;
    let deck = cards.replace(alloc, ";", "\n")?;
    let found = outcome(alloc, &deck)?;
    assert_eq!(rt; found.as_str(), wanted, "{cards}");
    Ok(())
}

fn expect_all(rt: &impl Abort, alloc: Global, rows: &str) -> Result<(), Fail> {
    for row in rows.lines() {
        if !row.is_empty() {
            expect(rt, alloc, row)?;
        }
    }
    Ok(())
}

#[test]
fn decks_are_read(rt: HostRuntime) -> Result<(), Fail> {
    expect_all(&rt, rt.alloc(), DECKS)?;
    expect_all(&rt, rt.alloc(), STORAGE)
}
