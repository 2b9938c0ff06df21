ghost use Rattle.std.specs.Prelude.{◌≡◌, true};
ghost use Rattle.policy.specs.Course.{agree_for, same_answer};
ghost use Rattle.policy.specs.Policies.{SameCourse, course_of};

use crate::policy::Policy;

// Steps two policies, of one kind or of two, and says whether their answers are the same.
fn step_both<P: Policy, Q: Policy>(p: &mut P, q: &mut Q) -> bool
    ensures answers { result
        ≡ same_answer (course_of P.Policy p.old 0) (course_of Q.Policy q.old 0) }
    ensures p_moved { P.position p.new ≡ P.meaning.next (P.position p.old) }
    ensures q_moved { Q.position q.new ≡ Q.meaning.next (Q.position q.old) }
{
    p.step() == q.step()
}

/// Whether two policies, of one kind or of two, give the same answers for so many slots. Equal
/// courses do for any number of slots.
pub fn same_answers<P: Policy, Q: Policy>(p: &P, q: &Q, slots: u16) -> bool
    ensures value { result
        ≡ agree_for (course_of P.Policy p.now) (course_of Q.Policy q.now) slots }
    ensures equal { SameCourse (course_of P.Policy p.now) (course_of Q.Policy q.now)
        → result ≡ true }
{
    let mut left = p.copy();
    let mut right = q.copy();
    for slot in 0..slots {
        if !step_both(&mut left, &mut right) {
            return false;
        }
    }
    true
}

/// Two copies of a policy. Both have the policy's course, and so equal courses at every slot.
pub fn copies_agree<P: Policy>(p: &P) -> (P, P)
    ensures equal { SameCourse (course_of P.Policy result.0) (course_of P.Policy result.1) }
    ensures first { P.position result.0 ≡ P.position p.now }
    ensures second { P.position result.1 ≡ P.position p.now }
{
    (p.copy(), p.copy())
}
