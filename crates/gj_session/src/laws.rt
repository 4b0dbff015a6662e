//! What a run alone owes to its messages.
ghost use Rattle.std.specs.Prelude.{◌≡◌, ◌⊎◌, ℕ, ◌+◌, ◌-◌, ◌^◌, ◌<◌, ◌≤◌, List, length, Ok, false, true};
ghost use Rattle.gj_base.specs.Causes.{RoseBy};
ghost use Rattle.gj_base.specs.Configuration.{Configuration};
ghost use Rattle.gj_base.specs.History.{end_of, length_of};
ghost use Rattle.gj_base.specs.declared.ask.Ask.TheVariants as asks;
ghost use Rattle.gj_base.specs.declared.ask.Query.{Query};
ghost use Rattle.gj_base.specs.declared.history.Shown.{Shown};
ghost use Rattle.gj_base.specs.declared.item.Item.{Item};
ghost use Rattle.gj_http.specs.Request.{Request};
ghost use Rattle.gj_reply.specs.Statuses.{status_of};
ghost use Rattle.gj_reply.specs.declared.fixed.Fixed.TheVariants as fixed;
ghost use Rattle.gj_reply.specs.declared.reply.Reply.TheVariants as replies;
ghost use Rattle.gj_reply.specs.declared.status.Status.TheVariants as statuses;
ghost use Rattle.gj_session.specs.Answers.{Answers, window_under};
ghost use Rattle.gj_session.specs.Completeness.{AnswersWhole, HasPlace};
ghost use Rattle.gj_session.specs.Heard.{heard, lack_of};
ghost use Rattle.gj_session.specs.Marks.{Mark};
ghost use Rattle.gj_session.specs.Outcomes.{is_store};
ghost use Rattle.gj_session.specs.Reference.{since_of, kind_reply};
ghost use Rattle.gj_session.specs.Runs.{Exchange, Leads, Run, stores_in};
ghost use Rattle.gj_session.specs.declared.outcome.Outcome.{Outcome};
ghost use Rattle.gj_session.specs.declared.outcome.Outcome.TheVariants.{Says, Stands};

/// In a run alone a query whose `since` is at most the length gets the reply of its kind, and a batch for which there is
/// room is posted where the store did not fail, both with the status 200, a page where the window has its place; else a
/// fixed reply of want of memory stands.
/// So it is at each step of a run without an answer by the store's fault, also of a numbered batch with the next number of
/// its producer or the last one again, and a run over which the count of the index stays has none. It does nothing; its
/// contract is the law.
pub fn whole_replies()
    ensures query { (conf : Configuration) (seat : ℕ) (a b : Mark) (message : Request) (query : Query) (outcome : Outcome)
        → heard message ≡ Ok (asks.Query query) → Answers conf true seat a message outcome b → since_of query ≤ end_of (window_under conf a.seen)
        → (outcome ≡ Says (kind_reply query (window_under conf a.seen))) ⊎ (outcome ≡ Stands (lack_of message)) }
    ensures batch { (conf : Configuration) (seat : ℕ) (a b : Mark) (message : Request) (batch : List Item) (outcome : Outcome)
        → heard message ≡ Ok (asks.Items batch) → Answers conf true seat a message outcome b → length_of a.seen + length batch ≤ 2 ^ 48 → is_store outcome ≡ false
        → (outcome ≡ Says (replies.Posted (length_of a.seen) (length_of b.seen))) ⊎ ((outcome ≡ Stands fixed.Accepted) ⊎ (outcome ≡ Stands fixed.NotAccepted)) }
    ensures status { ((query : Query) (shown : Shown) → HasPlace query shown → status_of (kind_reply query shown) ≡ statuses.Ok)
        × ((from to : ℕ) → status_of (replies.Posted from to) ≡ statuses.Ok) }
    ensures run { (conf : Configuration) (seat : ℕ) (a b : Mark) (exchanges : List Exchange) → Run conf true seat a b exchanges → stores_in exchanges ≡ 0
        → Leads Mark (λ x message outcome y. Answers conf true seat x message outcome y × AnswersWhole conf x message outcome) a b exchanges }
    ensures stores { (before now : ℕ) (exchanges : List Exchange) → RoseBy (stores_in exchanges) before now → now ≡ before → before < 2 ^ 64 - 1 → stores_in exchanges ≡ 0 }
{}
