ghost use Rattle.session_runs.specs.WrongHistories.{
  IsStoppedBy,
  two_leaves,
  before_the_join,
  the_join,
  one_request,
  before_the_reply,
  the_reply,
  before_its_end,
  behind_its_end,
  the_end_again,
  the_delivery_again,
  one_by_one,
  the_left_arm_asks,
  the_right_arm_asks,
  the_right_arm_fails,
  one_measurement,
  one_pass_asks,
  another_answers,
  the_ask_again,
  one_pass_answers,
  an_answer_again,
  all_done,
  done_again,
  two_measurements,
  one_fails,
  the_other_asks,
};

/// Entries that can't come next in a history, whatever the bench: a join that doesn't wait for the
/// right arm's block; a reply ahead of the remote event, or ahead of the end of the block; an end, a
/// delivery or an ask that comes again; a sequential branch run as a parallel one; a fault of an event
/// whose turn hasn't come; an answer by a pass that didn't ask; a second answer for one event; a move
/// after a fault, or of a session that is done.
pub fn wrong_histories()
    ensures joined { IsStoppedBy two_leaves before_the_join the_join }
    ensures replied { IsStoppedBy one_request before_the_reply the_reply }
    ensures replied_early { IsStoppedBy one_request before_its_end the_reply }
    ensures ended_again { IsStoppedBy one_request behind_its_end the_end_again }
    ensures delivered_again { IsStoppedBy one_request before_the_reply the_delivery_again }
    ensures at_once { IsStoppedBy one_by_one the_left_arm_asks the_right_arm_asks }
    ensures early_fault { IsStoppedBy one_by_one the_left_arm_asks the_right_arm_fails }
    ensures stranger { IsStoppedBy one_measurement one_pass_asks another_answers }
    ensures asked_again { IsStoppedBy one_measurement one_pass_asks the_ask_again }
    ensures twice { IsStoppedBy one_measurement one_pass_answers an_answer_again }
    ensures after_end { IsStoppedBy one_measurement all_done done_again }
    ensures after_fault { IsStoppedBy two_measurements one_fails the_other_asks }
{}
