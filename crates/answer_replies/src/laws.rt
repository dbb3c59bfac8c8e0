//! A law of replies. The function does nothing: its contract is the law.

ghost use Rattle.std.specs.Prelude.{ℕ, List};
ghost use Rattle.criteria.specs.declared.name.CriterionName.{CriterionName};
ghost use Rattle.timetable.specs.declared.query.Query.{Query};
ghost use Rattle.scan_state.specs.SetQuery.{single_set_query};
ghost use Rattle.answer_replies.specs.OneStop.{IsAnsweredOneBy};
ghost use Rattle.answer_replies.specs.Replying.{IsAnsweredBy, Subject};

/// What answers a query between a set of one stop and a set of one other answers the query from the one to the other.
pub fn one_stop_is_plain()
    ensures { (criterion : CriterionName) (subject : Subject) (q : Query) (reply : List ℕ)
        → IsAnsweredBy criterion subject (single_set_query q) reply → IsAnsweredOneBy criterion subject q reply }
{}
