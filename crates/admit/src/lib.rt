// Which messages a site takes: addressed here, in the right view, in the right status, between the right roles.
#![tactic(auto)]

ghost use Rattle.std.specs.Prelude.{◌≡◌, Bool, false, ℕ, ◌+◌, ◌*◌, ◌%◌, ◌<◌, ◌≤◌, eqb, ltb};
ghost use Rattle.octets.specs.Bytes.{num, items};
ghost use Rattle.rules.specs.Choice.{same};
ghost use Rattle.rules.specs.Group.{holds};
ghost use Rattle.rules.specs.Wire.{tag_of};
ghost use Rattle.rules.specs.Kind.{bare, from_outside, row_of};
ghost use Rattle.rules.specs.Read.{wire_in, decoded};
ghost use Rattle.rules.specs.Image.{state_of, at_gvec};
ghost use Rattle.rules.specs.Step.{newer, equal, here, view_right, status_right, leads_by, from_leader, receiver_fits, sender_fits, role_right};
ghost use Rattle.places.specs.Layout.{Stands, start_of};
ghost use Rattle.admit.specs.Refusal.{admission, standing, told, Comes};

use rules::{Header, Message, Receiver, Refusal, Sender, Shape, Views};

// The kind of what is no message.
const NO_KIND: u8 = 0;

// Whether view j of a message's gVec is the state's.
fn same_view(shape: Shape, state: &[u8], message: &[u8], j: u64) -> bool
    requires { Stands shape (state_of shape state.now) state.now × (j < shape.s) }
    ensures { result ≡ eqb (num message.now (16 + 4 * j) 4) (num state.now (start_of shape at_gvec + 4 * j) 4) }
{
    octets::look32(message, 16 + 4 * j as usize) == places::view_at(shape, state, j)
}

// Whether a message's gVec is the state's.
fn same_views(shape: Shape, state: &[u8], message: &[u8]) -> bool
    requires { Stands shape (state_of shape state.now) state.now }
    ensures { result ≡ same (items (λ a. num message.now a 4) 4 16 shape.s) (state_of shape state.now).view.g_vec }
{
    (0..shape.s).all(|j| same_view(shape, state, message, j))
}

// Whether a replica leads group j by a message's gVec.
fn leads_in(shape: Shape, message: &[u8], j: u64, replica: u64) -> bool
    requires { (j < shape.s) × (shape.s ≤ 8) × (0 < shape.n) }
    ensures { result ≡ eqb replica (num message.now (16 + 4 * j) 4 % shape.n) }
{
    group::leads(
        shape.n,
        octets::look32(message, 16 + 4 * j as usize),
        replica,
    )
}

// A message as it comes to a site: the state's bytes, the message's kind and header, and its bytes.
#[derive(Clone, Copy)]
struct Arrival<'a> {
    shape: Shape,
    state: &'a [u8],
    kind: u8,
    header: Header,
    message: &'a [u8],
}

impl Arrival<'_> {
    // Whether a message is addressed to this site.
    fn is_here(self) -> bool
        requires { Comes self }
        ensures { result ≡ here (standing self.entry) (told self.entry) }
    {
        let own = self.header.to_group as u64 == places::get_group(self.state);
        own & group::holds(self.header.to_mask as u16, places::get_replica(self.state))
    }

    // Whether a message has a greater gView than the state.
    fn is_newer(self) -> bool
        requires { Comes self }
        ensures { result ≡ newer (standing self.entry) (told self.entry) }
    {
        places::get_view(self.state) < self.header.view
    }

    // Whether gView and gVec of a message are those of the state.
    fn is_equal(self) -> bool
        requires { Comes self × (bare self.kind ≡ false) }
        ensures { result ≡ equal (standing self.entry) (told self.entry) }
    {
        (self.header.view == places::get_view(self.state))
            & same_views(self.shape, self.state, self.message)
    }

    // Whether a message's view is right for its kind.
    fn view_right(self) -> bool
        requires { Comes self }
        ensures { result ≡ view_right self.entry.kind (standing self.entry) (told self.entry) }
    {
        let views = kinds::row_of(self.kind).views;
        match views {
            Views::AnyView => true,
            Views::Greater => self.is_newer(),
            Views::GreaterOrEqual => self.is_newer() | self.is_equal(),
            Views::BothEqual => self.is_equal(),
        }
    }

    // Whether the status is right for a message.
    fn status_right(self) -> bool
        requires { Comes self }
        ensures { result ≡ status_right self.entry.kind (standing self.entry) (told self.entry) }
    {
        let row = kinds::row_of(self.kind);
        let taken = group::holds(row.statuses as u16, places::get_status(self.state) as u64);
        if row.only_if_equal {
            return self.is_newer() | taken;
        }
        taken
    }

    // Whether this site leads its group by a message's gVec.
    fn leads_here(self) -> bool
        requires { Comes self × (bare self.kind ≡ false) }
        ensures { result ≡ leads_by self.entry.shape (standing self.entry) (told self.entry) }
    {
        leads_in(
            self.shape,
            self.message,
            places::get_group(self.state),
            places::get_replica(self.state),
        )
    }

    // Whether the sender leads its group by the message's gVec.
    fn from_leader(self) -> bool
        requires { Comes self × (from_outside self.kind ≡ false) }
        ensures { result ≡ from_leader self.entry.shape (told self.entry) }
    {
        leads_in(
            self.shape,
            self.message,
            self.header.from_group as u64,
            self.header.from_replica as u64,
        )
    }

    // Whether this site has the role of the kind's receiver.
    fn receiver_right(self) -> bool
        requires { Comes self }
        ensures { result ≡ receiver_fits (row_of self.entry.kind).receiver self.entry.shape (standing self.entry) (told self.entry) }
    {
        let receiver = kinds::row_of(self.kind).receiver;
        match receiver {
            Receiver::ALeader => self.leads_here(),
            Receiver::AFollower => !self.leads_here(),
            Receiver::Anyone => true,
            Receiver::Outsiders => true,
        }
    }

    // Whether the sender has the role of the kind's sender.
    fn sender_right(self) -> bool
        requires { Comes self }
        ensures { result ≡ sender_fits (row_of self.entry.kind).sender self.entry.shape (standing self.entry) (told self.entry) }
    {
        let own = self.header.from_group as u64 == places::get_group(self.state);
        let sender = kinds::row_of(self.kind).sender;
        match sender {
            Sender::Outsider => true,
            Sender::OwnLeader => own & self.from_leader(),
            Sender::OwnReplica => {
                own & (self.header.from_replica as u64 != places::get_replica(self.state))
            }
            Sender::OtherLeader => !own & self.from_leader(),
            Sender::AnyReplica => true,
        }
    }

    // Whether receiver and sender have the roles of the kind, by the message's gVec.
    fn role_right(self) -> bool
        requires { Comes self }
        ensures { result ≡ role_right self.entry.kind self.entry.shape (standing self.entry) (told self.entry) }
    {
        self.receiver_right() & self.sender_right()
    }
}

// Whether a message is admitted; else the lowest of the refusals 2 to 6 that applies. What is malformed is so at `wrong`.
pub fn admitted(
    shape: Shape,
    state: &[u8],
    m: Message,
    message: &[u8],
    wrong: usize,
) -> Result<(), Refusal>
    requires { Stands shape (state_of shape state.now) state.now × (m ≡ decoded shape.n shape.s message.now) }
    ensures { result ≡ admission shape (state_of shape state.now) (tag_of m) (wire_in shape.s message.now) wrong }
{
    let said = writer::said_of(m);
    if (said.tag == NO_KIND) | kinds::to_outside(said.tag) {
        return Err(Refusal::Malformed(wrong));
    }
    let arrival = Arrival {
        shape,
        state,
        kind: said.tag,
        header: said.header,
        message,
    };
    if !arrival.is_here() {
        return Err(Refusal::NotAddressedHere);
    }
    if !arrival.view_right() {
        return Err(Refusal::WrongView);
    }
    if !arrival.status_right() {
        return Err(Refusal::WrongStatus);
    }
    if !arrival.role_right() {
        return Err(Refusal::WrongRole);
    }
    Ok(())
}
