// Moving a paper on from any stage: to another one, or to its end.
ghost use Rattle.std.specs.Prelude.{◌≡◌, T};
ghost use Rattle.dispute.specs.Limits.{is_sum};
ghost use Rattle.dispute.specs.Paper.{resolution};
ghost use Rattle.dispute.specs.Views.{yields};

use crate::paper::{Paper, Resolution};

impl<S: Copy> Paper<S> {
    // The paper at another stage.
    pub(crate) fn into_stage<To>(self, stage: To) -> Paper<To>
        ensures asset { result.asset ≡ self.asset }
        ensures period { result.period ≡ self.period }
        ensures stage { result.stage ≡ stage }
    {
        let Paper {
            asset,
            period,
            stage: _,
        } = self;
        Paper {
            asset,
            period,
            stage,
        }
    }

    // What the paper comes to at this sum.
    pub(crate) fn into_resolution(self, cents: i64) -> Resolution
        requires { T (is_sum cents) }
        ensures value { yields result ≡ resolution self.asset cents }
    {
        let Paper {
            asset,
            period: _,
            stage: _,
        } = self;
        Resolution { asset, cents }
    }
}
