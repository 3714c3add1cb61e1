//! The generator of lines.
ghost use Rattle.std.specs.Prelude.{◌≡◌, ◌↔◌, ◌%◌, ◌<◌, ◌≤◌, ℕ, List, IfOk, OnOk};
ghost use Rattle.vr_draws.specs.Draws.{draw, next_number};
ghost use Rattle.vr_draws.specs.Drawn.{at_replica, at_sector, drawn_asking, drawn_delivery, drawn_kind, drawn_line, drawn_operation, drawn_request, drawn_size, drawn_version};
ghost use Rattle.vr_header.specs.Bodies.{IsOperation};
ghost use Rattle.vr_header.specs.declared.operation.Operation.TheVariants as operation;
ghost use Rattle.vr_lines.specs.Fits.{IsLineOf, IsSector};
ghost use Rattle.vr_lines.specs.Versions.{line_sectors};

use crate::Requests;
use crate::operation::{key_of, value_of};
use std::alloc::{AllocError, Global};
use std::cmp::min;
use vr_base::Version;
use vr_header::Operation;
use vr_lines::{Line, line_sectors};
use vr_msg::{Request, RequestFields};

/// The version of the lines that are drawn.
fn drawn_version() -> Version
    ensures { result ≡ drawn_version }
{
    Version::new(1)
}

/// Draws numbers from a number, and makes the lines of a schedule of them.
#[derive(Debug, Drop)]
pub struct Generator {
    /// The number that is drawn from next.
    pub number: u64,
}

impl Generator {
    /// The generator that draws from this number.
    pub fn new(seed: u64) -> Generator
        ensures { result.number ≡ seed }
    {
        Generator { number: seed }
    }

    #[tactic(auto, unfolding(crate::specs::Draws::next_number))]
    fn advance(&mut self)
        ensures { self.new.number ≡ next_number self.old.number }
    {
        self.number = self
            .number
            .wrapping_mul(6_364_136_223_846_793_005)
            .wrapping_add(1_442_695_040_888_963_407);
    }

    /// A number below 2^31.
    #[tactic(auto, using(std::proofs::lemmas::Grind::common_steps, crate::proofs::Drawing::first_draw))]
    pub fn draw(&mut self) -> u64
        ensures drawn { result ≡ draw self.old.number 1 }
        ensures number { self.new.number ≡ next_number self.old.number }
    {
        self.advance();
        self.number / (1 << 33)
    }

    /// A number below a limit.
    fn draw_below(&mut self, limit: u64) -> u64
        requires { 0 < limit }
        ensures drawn { result ≡ draw self.old.number 1 % limit }
        ensures number { self.new.number ≡ next_number self.old.number }
        ensures least { result < limit }
    {
        self.draw() % limit
    }

    /// How many replicas a group has, 2 to 6.
    #[tactic(auto, unfolding(crate::specs::Draws::after_draws))]
    pub fn size(&mut self) -> u8
        ensures size { result ≡ (drawn_size self.old.number).value }
        ensures number { self.new.number ≡ (drawn_size self.old.number).number }
        ensures bounds { (2 ≤ result) × (result ≤ 6) }
    {
        2 + self.draw_below(5) as u8
    }

    /// Put, get or delete.
    #[tactic(auto, unfolding(crate::specs::Draws::after_draws, crate::specs::Draws::draw, crate::specs::Drawn::drawn_operation))]
    fn operation(&mut self, alloc: Global) -> Result<Operation, AllocError>
        ensures value { IfOk result (λ o. o ≡ (drawn_operation self.old.number).value) }
        ensures number { OnOk result (self.new.number ≡ (drawn_operation self.old.number).number) }
        ensures other { IfOk result (λ o. ¬ (o ≡ operation.Register)) }
    {
        let kind = self.draw_below(3);
        let key = key_of(alloc, self.draw())?;
        if kind == 0 {
            return Ok(Operation::Put(key, value_of(alloc, self.draw())?));
        }
        if kind == 1 {
            return Ok(Operation::Get(key));
        }
        Ok(Operation::Delete(key))
    }

    /// What a client asks whose next request has this number.
    #[tactic(auto, unfolding(crate::specs::Drawn::drawn_asking))]
    fn asking(&mut self, alloc: Global, number: u32) -> Result<Operation, AllocError>
        ensures value { IfOk result (λ o. o ≡ (drawn_asking number self.old.number).value) }
        ensures number { OnOk result (self.new.number ≡ (drawn_asking number self.old.number).number) }
        ensures first { IfOk result (λ o. (o ≡ operation.Register) ↔ (number ≡ 0)) }
        ensures fits { IfOk result (λ o. IsOperation drawn_version o) }
    {
        if number == 0 {
            return Ok(Operation::Register);
        }
        self.operation(alloc)
    }

    /// A request.
    #[tactic(auto, unfolding(crate::specs::Draws::after_draws, crate::specs::Draws::draw, crate::specs::Drawn::drawn_request))]
    fn request(&mut self, alloc: Global, n: u8, requests: &Requests) -> Result<Line, AllocError>
        requires { 0 < n }
        ensures line { IfOk result (λ l. l ≡ (drawn_request n requests.now self.old.number).value) }
        ensures number { OnOk result (self.new.number ≡ (drawn_request n requests.now self.old.number).number) }
        ensures fits { IfOk result (λ l. IsLineOf drawn_version n l) }
    {
        let replica = self.draw_below(u64::from(n)) as u8;
        let client = self.draw_below(4);
        let number = requests.get(client as usize);
        let operation = self.asking(alloc, number)?;
        let request = Request::new(RequestFields {
            version: drawn_version(),
            cluster: 0,
            client: 1 + client,
            request: number,
            operation,
        });
        Ok(Line::Request { replica, request })
    }

    /// The delivery of one of the last 16 messages.
    #[tactic(auto, unfolding(crate::specs::Draws::after_draws, crate::specs::Draws::draw, crate::specs::Drawn::drawn_delivery))]
    fn delivery(&mut self, messages: usize) -> Line
        ensures line { result ≡ (drawn_delivery messages self.old.number).value }
        ensures number { self.new.number ≡ (drawn_delivery messages self.old.number).number }
        ensures fits { (n : ℕ) → 0 < n → IsLineOf drawn_version n result }
    {
        let count = messages as u64;
        if count == 0 {
            return Line::Deliver(0);
        }
        let back = self.draw_below(min(count, 16));
        Line::Deliver(count - 1 - back)
    }

    /// A replica.
    fn replica(&mut self, n: u8) -> u8
        requires { 0 < n }
        ensures replica { result ≡ draw self.old.number 1 % n }
        ensures number { self.new.number ≡ next_number self.old.number }
        ensures least { result < n }
    {
        self.draw_below(u64::from(n)) as u8
    }

    /// A sector that lines of that version speak of.
    fn sector(&mut self) -> u32
        ensures sector { result ≡ draw self.old.number 1 % line_sectors drawn_version }
        ensures number { self.new.number ≡ next_number self.old.number }
        ensures least { IsSector drawn_version result }
    {
        self.draw_below(u64::from(line_sectors(drawn_version()))) as u32
    }

    /// A line of a fault, by its kind.
    #[tactic(auto, unfolding(crate::specs::Draws::after_draws, crate::specs::Draws::draw, crate::specs::Drawn::drawn_kind))]
    fn fault(&mut self, n: u8, kind: u64) -> Line
        requires size { 0 < n }
        requires kind { (61 ≤ kind) × (kind < 64) }
        ensures line { (messages : ℕ) (next : List ℕ) → result ≡ (drawn_kind n messages next kind self.old.number).value }
        ensures number { (messages : ℕ) (next : List ℕ) → self.new.number ≡ (drawn_kind n messages next kind self.old.number).number }
        ensures fits { IsLineOf drawn_version n result }
    {
        let replica = self.replica(n);
        let sector = self.sector();
        if kind == 61 {
            return Line::Damage { replica, sector };
        }
        if kind == 62 {
            return Line::Stale { replica, sector };
        }
        Line::Unread { replica, sector }
    }

    /// A line of a kind.
    #[tactic(auto, unfolding(crate::specs::Draws::after_draws, crate::specs::Draws::draw, crate::specs::Drawn::drawn_kind))]
    fn line_of(
        &mut self,
        alloc: Global,
        n: u8,
        messages: usize,
        requests: &Requests,
        kind: u64,
    ) -> Result<Line, AllocError>
        requires size { 0 < n }
        requires kind { kind < 64 }
        ensures line { IfOk result (λ l. l ≡ (drawn_kind n messages requests.now kind self.old.number).value) }
        ensures number { OnOk result (self.new.number ≡ (drawn_kind n messages requests.now kind self.old.number).number) }
        ensures fits { IfOk result (λ l. IsLineOf drawn_version n l) }
    {
        match kind {
            0..=9 => self.request(alloc, n, requests),
            10..=41 => Ok(self.delivery(messages)),
            42..=55 => Ok(Line::Tick(self.replica(n))),
            56 => Ok(Line::Stop(self.replica(n))),
            57..=60 => Ok(Line::Start(self.replica(n))),
            _ => Ok(self.fault(n, kind)),
        }
    }

    /// The next line of a schedule, for a group that has so many replicas and messages, and whose clients' next requests have these
    /// numbers.
    #[tactic(auto, unfolding(crate::specs::Draws::after_draws, crate::specs::Draws::draw, crate::specs::Drawn::drawn_line))]
    pub fn line(
        &mut self,
        alloc: Global,
        n: u8,
        messages: usize,
        requests: &Requests,
    ) -> Result<Line, AllocError>
        requires { 0 < n }
        ensures line { IfOk result (λ l. l ≡ (drawn_line n messages requests.now self.old.number).value) }
        ensures number { OnOk result (self.new.number ≡ (drawn_line n messages requests.now self.old.number).number) }
        ensures fits { IfOk result (λ l. IsLineOf drawn_version n l) }
    {
        let kind = self.draw_below(64);
        self.line_of(alloc, n, messages, requests, kind)
    }
}
