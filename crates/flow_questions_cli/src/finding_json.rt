//! What to look at in a policy, as a JSON object.

use crate::policy_places::{Places, event_name};
use crate::subject::Subject;
use flow_policy_lint::PolicyFindings;
use flow_writer::Writer;
use std::alloc::{AllocError, Global};

/// Findings that are told one after another.
#[derive(Drop)]
struct Listing {
    writer: Writer,
    /// What stands before the next one.
    before: &'static str,
}

impl Listing {
    /// Begins the object of a finding.
    fn begin(&mut self, finding: &str) -> Result<(), AllocError> {
        self.writer.words(self.before)?;
        self.before = ",";
        self.writer.words("{\"finding\":\"")?;
        self.writer.words(finding)?;
        self.writer.words("\"")
    }

    /// Adds the name of an event or a role.
    fn name(&mut self, member: &str, name: &[u8]) -> Result<(), AllocError> {
        self.writer.words(",\"")?;
        self.writer.words(member)?;
        self.writer.words("\":")?;
        self.writer.quoted(name)
    }

    /// Adds a place in the policy's file.
    fn spot(&mut self, spot: (usize, usize)) -> Result<(), AllocError> {
        self.writer.words(",\"line\":")?;
        self.writer.number(spot.0 as u64)?;
        self.writer.words(",\"column\":")?;
        self.writer.number(spot.1 as u64)
    }

    /// Ends the object of a finding.
    fn end(&mut self) -> Result<(), AllocError> {
        self.writer.words("}")
    }

    /// Adds an event that nobody may take.
    fn untaken(&mut self, subject: &Subject, event: u32) -> Result<(), AllocError> {
        self.begin("untaken")?;
        self.name("task", event_name(subject, event))?;
        self.end()
    }

    /// Adds a role that is allowed nothing.
    fn idle_role(&mut self, places: &Places<'_>, number: u32) -> Result<(), AllocError> {
        let (role, spot) = places.first_name(number);
        self.begin("idle_role")?;
        self.spot(spot)?;
        self.name("role", role)?;
        self.end()
    }

    /// Adds two events that are tied.
    fn tied(
        &mut self,
        subject: &Subject,
        finding: &str,
        spot: (usize, usize),
        pair: (u32, u32),
    ) -> Result<(), AllocError> {
        self.begin(finding)?;
        self.spot(spot)?;
        self.name("task", event_name(subject, pair.0))?;
        self.name("other", event_name(subject, pair.1))?;
        self.end()
    }

    /// Adds a final event with a task behind it.
    fn stuck(&mut self, subject: &Subject, pair: (u32, u32)) -> Result<(), AllocError> {
        self.begin("stuck")?;
        self.name("final", event_name(subject, pair.0))?;
        self.name("task", event_name(subject, pair.1))?;
        self.end()
    }

    /// Adds what is found of events and roles.
    fn of_roles(
        &mut self,
        subject: &Subject,
        places: &Places<'_>,
        found: &PolicyFindings,
    ) -> Result<(), AllocError> {
        for event in &found.untaken {
            self.untaken(subject, *event)?;
        }
        for number in &found.idle_roles {
            self.idle_role(places, *number)?;
        }
        Ok(())
    }

    /// Adds what is found of ties and of final events.
    fn of_pairs(
        &mut self,
        subject: &Subject,
        places: &Places<'_>,
        found: &PolicyFindings,
    ) -> Result<(), AllocError> {
        for pair in &found.unmet_binds {
            let spot = places.bind(subject, pair.0, pair.1);
            self.tied(subject, "unmet_bind", spot, *pair)?;
        }
        for pair in &found.unmet_separates {
            let spot = places.separate(subject, pair.0, pair.1);
            self.tied(subject, "unmet_separate", spot, *pair)?;
        }
        for pair in &found.stuck {
            self.stuck(subject, *pair)?;
        }
        Ok(())
    }
}

/// What is found, as an object on a line.
pub(crate) fn finding_objects(
    alloc: Global,
    subject: &Subject,
    places: &Places<'_>,
    found: &PolicyFindings,
) -> Result<Vec<u8>, AllocError> {
    let mut writer = Writer::new(alloc);
    writer.words("{\"findings\":[")?;
    let mut listing = Listing { writer, before: "" };
    listing.of_roles(subject, places, found)?;
    listing.of_pairs(subject, places, found)?;
    let Listing {
        mut writer,
        before: _,
    } = listing;
    writer.words("]}\n")?;
    Ok(writer.text)
}
