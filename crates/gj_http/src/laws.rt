// The laws of cutting.

ghost use Rattle.std.specs.Prelude.{◌≡◌, ◌⊎◌, ℕ, ◌<◌, List, [], ◌∷◌, ◌++◌, length, Option, Some};
ghost use Rattle.std.specs.List.{concat};
ghost use Rattle.gj_http.specs.Request.{Request};
ghost use Rattle.gj_http.specs.Cut.{IsMessage, IsRefused, NeedsMore, Cuts};
ghost use Rattle.gj_http.specs.Calls.{Call, Feeds, InFront, Runs, fed, taken};
ghost use Rattle.gj_http.specs.declared.message.Refused.{Refused};

/// At the front stands one message with one rest, or the bytes are refused for one cause, or they need more. What follows
/// a message is shorter, and no bytes need more.
pub fn one_front()
    ensures some { (bytes : List ℕ) → ((request : Request) × (rest : List ℕ) × IsMessage bytes request rest)
        ⊎ (((why : Refused) × IsRefused bytes why) ⊎ NeedsMore bytes) }
    ensures message { (bytes : List ℕ) (first second : Request) (rest others : List ℕ) → IsMessage bytes first rest → IsMessage bytes second others
        → (first ≡ second) × (rest ≡ others) }
    ensures refusal { (bytes : List ℕ) (first second : Refused) → IsRefused bytes first → IsRefused bytes second → first ≡ second }
    ensures no_refused_message { (bytes : List ℕ) (request : Request) (rest : List ℕ) (why : Refused) → IsMessage bytes request rest → IsRefused bytes why → ⊥ }
    ensures no_partial_message { (bytes : List ℕ) (request : Request) (rest : List ℕ) → IsMessage bytes request rest → NeedsMore bytes → ⊥ }
    ensures no_partial_refusal { (bytes : List ℕ) (why : Refused) → IsRefused bytes why → NeedsMore bytes → ⊥ }
    ensures shorter { (bytes : List ℕ) (request : Request) (rest : List ℕ) → IsMessage bytes request rest → length rest < length bytes }
    ensures empty { NeedsMore [] }
{}

/// What stands at the front of a beginning stands at the front of the whole.
pub fn front_stays()
    ensures message { (bytes more : List ℕ) (request : Request) (rest : List ℕ) → IsMessage bytes request rest → IsMessage (bytes ++ more) request (rest ++ more) }
    ensures refusal { (bytes more : List ℕ) (why : Refused) → IsRefused bytes why → IsRefused (bytes ++ more) why }
{}

/// All bytes are cut.
pub fn some_cut()
    ensures { (bytes : List ℕ) → (messages : List Request) × (why : Option Refused) × (rest : List ℕ) × Cuts bytes messages why rest }
{}

/// Bytes are cut in one way only.
pub fn one_cut()
    ensures { (bytes : List ℕ) (first second : List Request) (why cause : Option Refused) (rest others : List ℕ)
        → Cuts bytes first why rest → Cuts bytes second cause others → (first ≡ second) × (why ≡ cause) × (rest ≡ others) }
{}

/// The messages of a beginning are a beginning of the messages, and a refusal stays.
pub fn beginnings()
    ensures messages { (bytes more : List ℕ) (first all : List Request) (why cause : Option Refused) (rest others : List ℕ)
        → Cuts bytes first why rest → Cuts (bytes ++ more) all cause others → (later : List Request) × (all ≡ first ++ later) }
    ensures refusal { (bytes more : List ℕ) (first all : List Request) (why : Refused) (cause : Option Refused) (rest others : List ℕ)
        → Cuts bytes first (Some why) rest → Cuts (bytes ++ more) all cause others → (all ≡ first) × (cause ≡ Some why) }
{}

/// A cut goes on where the cut of a beginning ends.
pub fn cut_goes_on()
    ensures { (bytes more : List ℕ) (first later : List Request) (why cause : Option Refused) (rest others : List ℕ)
        → Cuts bytes first why rest → Cuts (rest ++ more) later cause others → Cuts (bytes ++ more) (first ++ later) cause others }
{}

/// However the bytes are fed and the messages taken: what was taken, and then what the held bytes are cut into, is what
/// all the bytes are cut into.
pub fn taken_as_cut()
    ensures { (held now : List ℕ) (calls : List Call) (later : List Request) (why : Option Refused) (rest : List ℕ)
        → Runs held calls now → Cuts now later why rest → Cuts (held ++ fed calls) (taken calls ++ later) why rest }
{}

/// However the bytes come in pieces: where all messages are taken after each piece, what is taken in order, and then the
/// refusal or the wish for more, is what all the bytes are cut into.
pub fn fed_as_cut()
    ensures { (held : List ℕ) (pieces : List (List ℕ)) (messages : List Request) (why : Option Refused) (rest : List ℕ)
        → Feeds held pieces messages why rest → Cuts (held ++ concat pieces) messages why rest }
{}

/// What a loop keeps that feeds a framer and takes its messages: the messages so far, and then what the framer holds, are
/// the bytes that were fed.
pub fn loop_keeps()
    ensures none { (bytes : List ℕ) → InFront bytes [] bytes }
    ensures take { (bytes held rest : List ℕ) (messages : List Request) (request : Request)
        → InFront bytes messages held → IsMessage held request rest → InFront bytes (messages ++ request ∷ []) rest }
    ensures join { (bytes held rest : List ℕ) (messages later : List Request)
        → InFront bytes messages held → InFront held later rest → InFront bytes (messages ++ later) rest }
    ensures feed { (bytes held piece : List ℕ) (messages : List Request) → InFront bytes messages held → InFront (bytes ++ piece) messages (held ++ piece) }
    ensures cut { (bytes held rest : List ℕ) (messages later : List Request) (why : Option Refused)
        → InFront bytes messages held → Cuts held later why rest → Cuts bytes (messages ++ later) why rest }
    ensures begins { (bytes held rest : List ℕ) (messages all : List Request) (why : Option Refused)
        → InFront bytes messages held → Cuts bytes all why rest → (later : List Request) × (all ≡ messages ++ later) }
{}
