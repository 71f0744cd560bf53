//! The text of a trial.

use cap_gen::trial_text;
use std::test::Fail;

const TWO_LOCKS: &str = "region SLock1(r, x) {
  guards %LOCK * UNLOCK;
  interpretation {
    0 : x |-> 0 &*& r@UNLOCK;
    1 : x |-> 1;
  }
  actions {
    LOCK[_] : 0 ~> 1;
    UNLOCK : 1 ~> 0;
  }
}
function makeLock1()
  ensures SLock1(r, ret; 0) &*& r@LOCK[1p];
{ v := alloc(1); [v] := 0; return v; }
function lock1(x)
  requires SLock1(r, x; _) &*& r@LOCK[p];
  ensures SLock1(r, x; 1) &*& r@(LOCK[p] * UNLOCK);
{
  b := CAS(x, 0, 1);
  if (b = 0) { lock1(x); }
}
function unlock1(x)
  requires SLock1(r, x; 1) &*& r@UNLOCK;
  ensures SLock1(r, x; _);
{ [x] := 0; }
function worker1(x)
  requires SLock1(r, x; _) &*& r@LOCK[p];
{ lock1(x); unlock1(x); }
function client1() {
  x := makeLock1();
  fork worker1(x);
  lock1(x);
  unlock1(x);
}
region SLock2(r, x) {
  guards %LOCK * UNLOCK;
  interpretation {
    0 : x |-> 0 &*& r@UNLOCK;
    1 : x |-> 1;
  }
  actions {
    LOCK[_] : 0 ~> 1;
    UNLOCK : 1 ~> 0;
  }
}
function makeLock2()
  ensures SLock2(r, ret; 0) &*& r@LOCK[1p];
{ v := alloc(1); [v] := 0; return v; }
function lock2(x)
  requires SLock2(r, x; _) &*& r@LOCK[p];
  ensures SLock2(r, x; 1) &*& r@(LOCK[p] * UNLOCK);
{
  b := CAS(x, 0, 1);
  if (b = 0) { lock2(x); }
}
function unlock2(x)
  requires SLock2(r, x; 1) &*& r@UNLOCK;
  ensures SLock2(r, x; _);
{ [x] := 0; }
function worker2(x)
  requires SLock2(r, x; _) &*& r@LOCK[p];
{ lock2(x); unlock2(x); }
function client2() {
  x := makeLock2();
  fork worker2(x);
  lock2(x);
  unlock2(x);
}
function main() {
  client1();
  client2();
}
";

#[test]
fn trial_of_two_locks(rt: HostRuntime) -> Result<(), Fail> {
    let text = trial_text(rt.alloc(), 2)?;
    assert_eq!(rt; std::str::from_utf8(text.as_slice())?, TWO_LOCKS);
    Ok(())
}
