//! Which attempt is the last. Each call tells a caller so, and does nothing.
ghost use Rattle.std.specs.Prelude.{◌≡◌, ◌≤◌, ◌+◌, ◌↔◌, ℕ, Option, nat_lt, length, true, false};
ghost use Rattle.wf_answers.specs.AnswerTree.{AnswerTree};
ghost use Rattle.wf_retry.specs.Again.{retries};
ghost use Rattle.wf_retry.specs.declared.policy.Policy.{Policy as RetryPolicy};
ghost use Rattle.wf_connect.specs.Attempts.{repeated, tried};
ghost use Rattle.wf_connect.specs.Last.{Answered, IsLast, is_final, last_attempt, tries_of};

/// There is a last attempt and only one, at most one attempt more is made than the policy allows repetitions, and the row has as many.
pub fn the_last_attempt_is_the_least()
    ensures is { (policy : RetryPolicy) → (answers : Answered) → IsLast policy answers (last_attempt policy answers) }
    ensures only { (policy : RetryPolicy) → (answers : Answered) → (n : ℕ) → IsLast policy answers n → n ≡ last_attempt policy answers }
    ensures few { (policy : RetryPolicy) → (answers : Answered) → last_attempt policy answers ≤ 1 + retries policy }
    ensures kept { (policy : RetryPolicy) → (answers : Answered) → length (tries_of policy answers) ≡ last_attempt policy answers }
{}

/// An attempt is repeated exactly where it isn't final; and of those up to the last, exactly where it isn't the last. So whoever makes them
/// one by one, as long as another follows, makes as many.
pub fn attempts_go_on_to_the_last()
    ensures goes_on { (policy : RetryPolicy) → (k : ℕ) → (answer : Option AnswerTree)
        → (tried policy k answer ≡ repeated) ↔ (is_final policy k answer ≡ false) }
    ensures to_the_last { (policy : RetryPolicy) → (answers : Answered) → (k : ℕ) → 1 ≤ k → k ≤ last_attempt policy answers
        → (tried policy k (answers k) ≡ repeated) ↔ (nat_lt k (last_attempt policy answers) ≡ true) }
{}
