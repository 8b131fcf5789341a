ghost use Rattle.std.specs.Prelude.{◌≡◌, ◌∷◌, [], option_copied};
ghost use Rattle.std.specs.Option.{option_or};
ghost use Rattle.rtps_params.specs.Reading as reading;
ghost use Rattle.rtps_discovery.specs.Announcement as announcement;
ghost use Rattle.rtps_discovery.specs.Fields as fields;

use crate::layout::pid::{DURABILITY, ENDPOINT_GUID, RELIABILITY, TOPIC_NAME, TYPE_NAME};
use rtps_params::ParamList;

/// The first value of each parameter that describes an endpoint, if there is one.
#[derive(Clone, Copy)]
pub(crate) struct EndpointParameters<'a> {
    pub(crate) guid: Option<&'a [u8]>,
    pub(crate) topic: Option<&'a [u8]>,
    pub(crate) type_name: Option<&'a [u8]>,
    pub(crate) reliability: Option<&'a [u8]>,
    pub(crate) durability: Option<&'a [u8]>,
}

impl<'a> EndpointParameters<'a> {
    /// Those of a list. It goes through the list once.
    pub(crate) fn of(list: &ParamList<'a>) -> EndpointParameters<'a>
        ensures guid { option_copied result.guid ≡ announcement.field ENDPOINT_GUID (fields.fields_value list.now) }
        ensures topic { option_copied result.topic ≡ announcement.field TOPIC_NAME (fields.fields_value list.now) }
        ensures type_name { option_copied result.type_name ≡ announcement.field TYPE_NAME (fields.fields_value list.now) }
        ensures reliability { option_copied result.reliability ≡ announcement.field RELIABILITY (fields.fields_value list.now) }
        ensures durability { option_copied result.durability ≡ announcement.field DURABILITY (fields.fields_value list.now) }
    {
        let mut found = EndpointParameters {
            guid: None,
            topic: None,
            type_name: None,
            reliability: None,
            durability: None,
        };
        for (pid, value) in list.params() {
            found.add(pid, value);
        }
        found
    }

    /// Adds the next parameter. If its id has a value already, nothing changes.
    fn add(&mut self, pid: u16, value: &'a [u8])
        ensures guid { option_copied self.new.guid
            ≡ option_or (option_copied self.old.guid) (reading.first_value ENDPOINT_GUID ((pid, value.now) ∷ [])) }
        ensures topic { option_copied self.new.topic
            ≡ option_or (option_copied self.old.topic) (reading.first_value TOPIC_NAME ((pid, value.now) ∷ [])) }
        ensures type_name { option_copied self.new.type_name
            ≡ option_or (option_copied self.old.type_name) (reading.first_value TYPE_NAME ((pid, value.now) ∷ [])) }
        ensures reliability { option_copied self.new.reliability
            ≡ option_or (option_copied self.old.reliability) (reading.first_value RELIABILITY ((pid, value.now) ∷ [])) }
        ensures durability { option_copied self.new.durability
            ≡ option_or (option_copied self.old.durability) (reading.first_value DURABILITY ((pid, value.now) ∷ [])) }
    {
        match pid {
            ENDPOINT_GUID => self.guid = self.guid.or(Some(value)),
            TOPIC_NAME => self.topic = self.topic.or(Some(value)),
            TYPE_NAME => self.type_name = self.type_name.or(Some(value)),
            RELIABILITY => self.reliability = self.reliability.or(Some(value)),
            DURABILITY => self.durability = self.durability.or(Some(value)),
            _ => {}
        }
    }
}
