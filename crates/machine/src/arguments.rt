//! The arguments of a call.

ghost use Rattle.std.specs.Prelude.{◌≡◌, ◌++◌, ◌-◌, ◌≤◌, length, replicate, take};

/// How many arguments a step has room for. No method takes more than six; a call with more is refused like any other whose arguments are not its
/// method's.
pub const ARGUMENTS: usize = 13;

/// The arguments of a call, in order, at the start of their array.
#[derive(Clone, Copy, Debug, PartialEq, Eq)]
pub struct Arguments {
    pub count: u8,
    pub objects: [u8; ARGUMENTS],
    pub ghost few: { count ≤ 13 },
}

impl Arguments {
    /// These arguments, with zeros behind them.
    pub fn new(objects: &[u8]) -> Self
        requires { length objects.now ≤ 13 }
        ensures value { take result.count result.objects ≡ objects.now }
        ensures count { result.count ≡ length objects.now }
        ensures zeros { result.objects ≡ objects.now ++ replicate (13 - length objects.now) 0 }
    {
        let mut places = [0; ARGUMENTS];
        places[..objects.len()].copy_from_slice(objects);
        Arguments {
            count: objects.len() as u8,
            objects: places,
        }
    }

    pub fn objects(&self) -> &[u8]
        ensures value { result.now ≡ take self.now.count self.now.objects }
        ensures count { length result.now ≡ self.now.count }
        ensures few { length result.now ≤ 13 }
    {
        &self.objects[..usize::from(self.count)]
    }
}

#[cfg(test)]
mod tests {
    use super::*;

    #[test]
    fn two_arguments(rt: HostRuntime) {
        let arguments = Arguments::new(&[7, 5]);
        assert_eq!(rt; arguments.count, 2);
        assert_eq!(rt; arguments.objects(), [7, 5].as_slice());
        assert_eq!(rt; arguments.objects, [7, 5, 0, 0, 0, 0, 0, 0, 0, 0, 0, 0, 0]);
    }
}
