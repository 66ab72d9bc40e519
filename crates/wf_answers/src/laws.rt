//! What the definitions of inputs say, in other words. Each call tells a caller so, and does nothing.
ghost use Rattle.std.specs.Prelude.{◌≡◌, ◌≢◌, ◌≤◌, List, None, Some};
ghost use Rattle.std.specs.declared.cmp.Ordering.TheVariants.{Equal};
ghost use Rattle.wf_answers.specs.Added.{with_added};
ghost use Rattle.wf_answers.specs.AnswerTree.{AnswerTree, Key, find_answer, key_cmp, key_of};
ghost use Rattle.wf_answers.specs.Doubles.{IsLeastDouble, count_for};
ghost use Rattle.wf_answers.specs.Gathered.{gathered};
ghost use Rattle.wf_answers.specs.Inputs.{InputsTree};
ghost use Rattle.wf_lists.specs.KeyOrder.{IsInKeyOrder};

/// Of answers two of which are for one attempt, one for the least such attempt is told; where none is told, there are
/// no two.
pub fn the_least_double_is_told()
    ensures told { (answers : List AnswerTree) → (a : AnswerTree) → (gathered answers).twice ≡ Some a
        → IsLeastDouble answers (key_of a) }
    ensures none { (answers : List AnswerTree) → (gathered answers).twice ≡ None → (k : Key) → count_for k answers ≤ 1 }
{}

/// Answers that are kept stand in the order of their attempts, and what is found among them is the first that was given
/// for the attempt.
pub fn the_first_answers_are_kept()
    ensures in_order { (answers : List AnswerTree) → IsInKeyOrder key_cmp key_of (gathered answers).kept }
    ensures found { (answers : List AnswerTree) → (k : Key)
        → find_answer k (gathered answers).kept ≡ find_answer k answers }
{}

/// An answer that is added to inputs is found, and what is found for each other attempt stays. Answers in order stay so,
/// and answers for different attempts may be added in any order.
pub fn an_added_answer_is_found()
    ensures found { (i : InputsTree) → (a : AnswerTree) → find_answer (key_of a) (with_added i a).answers ≡ Some a }
    ensures others { (i : InputsTree) → (a : AnswerTree) → (k : Key) → k ≢ key_of a
        → find_answer k (with_added i a).answers ≡ find_answer k i.answers }
    ensures untied { (i : InputsTree) → (a : AnswerTree) → (k : Key) → key_cmp k (key_of a) ≢ Equal
        → find_answer k (with_added i a).answers ≡ find_answer k i.answers }
    ensures in_order { (i : InputsTree) → (a : AnswerTree) → IsInKeyOrder key_cmp key_of i.answers
        → IsInKeyOrder key_cmp key_of (with_added i a).answers }
    ensures in_any_order { (i : InputsTree) → (a : AnswerTree) → (b : AnswerTree) → IsInKeyOrder key_cmp key_of i.answers
        → key_of a ≢ key_of b → with_added (with_added i a) b ≡ with_added (with_added i b) a }
{}
