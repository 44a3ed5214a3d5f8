// What the evaluator does next, by its state and the call.
ghost use Rattle.std.specs.Prelude.{◌≡◌};
ghost use Rattle.parties.specs.States.{allowed};

#[derive(Clone, Copy, PartialEq, Eq, Debug)]
pub enum State {
    Collecting,
    Evaluating,
    Finished,
    Ended,
}

#[derive(Clone, Copy, PartialEq, Eq, Debug)]
pub enum EvaluatorCall {
    Join,
    Deliver,
    Evaluate,
    Decode,
    Wipe,
}

// Whether it is the call's turn.
pub fn in_turn(state: State, call: EvaluatorCall) -> bool
    ensures { result ≡ allowed state call }
{
    match (state, call) {
        (State::Ended, EvaluatorCall::Join) => true,
        (State::Ended, _) => false,
        (_, EvaluatorCall::Deliver | EvaluatorCall::Wipe) => true,
        (State::Evaluating, EvaluatorCall::Evaluate) => true,
        (State::Finished, EvaluatorCall::Decode) => true,
        _ => false,
    }
}
